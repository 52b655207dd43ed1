// Range lists by tables of kind numbers: walks, lookups, coverage and canonical lists, and which tables are loaded (loading.rt). The file
// stdout has the answers by docs/SCOPE.md: of a list, behind its bytes, three calls of a walk and three raw ones, each with the walk then
// by its place, base address and count. Behind a list that is read by a table stands the list renumbered, read without one. All is
// hexadecimal but the number of a refusal, behind which its value stands, 0 where it has none.
#![tactic(auto)]

mod loading;

use coverage::Coverage;
use entries::{Noted, RawRngListEntry};
use lists::{Range, Unit, Walk};
use section_bytes::Read;
use section_bytes::common::{DebugAddrBase, Encoding, Format, RangeListsOffset};
use section_bytes::endianity::RunTimeEndian;
use section_bytes::error::Error;
use std::io;

fn say(rt: &impl Print, text: &[u8]) -> io::Result<()> {
    rt.write_all(text)
}

fn refused(rt: &impl Print, e: Error) -> io::Result<()> {
    print!(rt; " refused {} {:x}", e.number(), e.value())
}

fn range(rt: &impl Print, x: Range) -> io::Result<()> {
    print!(rt; " {:x} {:x}", x.begin, x.end)
}

fn stands(rt: &impl Print, walk: Walk, padded: bool) -> io::Result<Walk> {
    let padded = if padded { ", padded" } else { "" };
    print!(rt;
        " ({:x}, {:x}, {:x}{padded})",
        walk.at, walk.base_address, walk.entries
    )?;
    Ok(walk)
}

fn answer(
    rt: &impl Print,
    (answer, after): (Result<Option<Range>, Error>, Walk),
) -> io::Result<Walk> {
    match answer {
        Ok(Some(x)) => range(rt, x)?,
        Ok(None) => say(rt, b" end")?,
        Err(e) => refused(rt, e)?,
    }
    stands(rt, after, false)
}

fn bounds(rt: &impl Print, raw: RawRngListEntry) -> io::Result<()> {
    match raw {
        RawRngListEntry::AddressOrOffsetPair(b, e) => print!(rt; " pair {b:x} {e:x}"),
        RawRngListEntry::BaseAddress(a) => print!(rt; " base {a:x}"),
        RawRngListEntry::BaseAddressx(i) => print!(rt; " base by index {:x}", i.0),
        RawRngListEntry::StartxEndx(i, j) => print!(rt;
            " start and end by index {:x} {:x}",
            i.0, j.0
        ),
        RawRngListEntry::StartxLength(i, n) => print!(rt;
            " start by index and length {:x} {n:x}",
            i.0
        ),
        RawRngListEntry::OffsetPair(b, e) => print!(rt; " offsets {b:x} {e:x}"),
        RawRngListEntry::StartEnd(b, e) => print!(rt; " start and end {b:x} {e:x}"),
        RawRngListEntry::StartLength(b, n) => print!(rt; " start and length {b:x} {n:x}"),
    }
}

fn raw_answer(
    rt: &impl Print,
    (answer, after): (Result<Option<Noted<RawRngListEntry>>, Error>, Walk),
) -> io::Result<Walk> {
    match answer {
        Ok(Some(noted)) => bounds(rt, noted.entry)?,
        Ok(None) => say(rt, b" end")?,
        Err(e) => refused(rt, e)?,
    }
    let padded = matches!(answer, Ok(Some(Noted { padded: true, .. })));
    stands(rt, after, padded)
}

fn encoding(version: u16, address_size: u8) -> Encoding {
    Encoding {
        address_size,
        format: Format::Dwarf32,
        version,
    }
}

// The table of addresses has no header.
fn unit(encoding: Encoding, debug_addr: &[u8]) -> Unit<'_> {
    Unit {
        encoding,
        endian: RunTimeEndian::Little,
        debug_addr,
        debug_addr_base: DebugAddrBase(0),
    }
}

fn print_bytes(rt: &impl Print, bytes: &[u8]) -> io::Result<()> {
    for &x in bytes {
        print!(rt; " {x:02x}")?;
    }
    Ok(())
}

// The table has two addresses, 10 and 20.
fn read(
    rt: &impl Print,
    name: &[u8],
    list: &[u8],
    encoding: Encoding,
    kinds: Option<&[u8]>,
) -> io::Result<()> {
    say(rt, name)?;
    print_bytes(rt, list)?;
    say(rt, b":")?;
    let unit = unit(encoding, b"\x10\0\0\0\x20\0\0\0");
    let start = Walk {
        at: 0,
        base_address: 0x1000,
        entries: 0,
    };
    let mut walk = start;
    for _ in 0..3 {
        let next = match kinds {
            Some(table) => lists::rnglists::next_by(list, &unit, walk, table),
            None => lists::rnglists::next(list, &unit, walk),
        };
        walk = answer(rt, next)?;
    }
    say(rt, b"; raw:")?;
    walk = start;
    for _ in 0..3 {
        let next = match kinds {
            Some(table) => {
                lists::rnglists::next_raw_by(list, walk, encoding, unit.endian, table)
            }
            None => lists::rnglists::next_raw(list, walk, encoding, unit.endian),
        };
        walk = raw_answer(rt, next)?;
    }
    say(rt, b"\n")
}

fn plain(rt: &impl Print, list: &[u8]) -> io::Result<()> {
    read(rt, b"no table,", list, encoding(5, 4), None)
}

fn by_fixed(rt: &impl Print, list: &[u8]) -> io::Result<()> {
    let kinds = loading::fixed();
    read(rt, b"fixed,", list, encoding(5, 4), Some(&kinds))
}

fn by_supplier(rt: &impl Print, list: &[u8]) -> io::Result<()> {
    let kinds = loading::supplier();
    read(rt, b"supplier,", list, encoding(5, 4), Some(&kinds))
}

// By the eight codes the other way round, kind 7 first.
fn by_reversed(rt: &impl Print, list: &[u8]) -> io::Result<()> {
    let kinds = b"\x07\x06\x05\x04\x03\x02\x01\0";
    read(rt, b"reversed,", list, encoding(5, 4), Some(kinds))
}

// By a table that is not loaded.
fn by(rt: &impl Print, kinds: &[u8], list: &[u8]) -> io::Result<()> {
    say(rt, b"table")?;
    print_bytes(rt, kinds)?;
    read(rt, b",", list, encoding(5, 4), Some(kinds))
}

fn look_up(
    rt: &impl Print,
    label: &[u8],
    kinds: &[u8],
    list: &[u8],
    address: u64,
) -> io::Result<()> {
    say(rt, label)?;
    let unit = unit(encoding(5, 4), list);
    match lookups::lookup_range_by(list, &unit, RangeListsOffset(0), 0, kinds, address) {
        Ok(Some(x)) => range(rt, x)?,
        Ok(None) => say(rt, b" not there")?,
        Err(e) => refused(rt, e)?,
    }
    say(rt, b"\n")
}

// How many runs a coverage has, and the first two places of its arrays; 0 where there is none.
fn made(rt: &impl Print, made: Result<Coverage, Error>) -> io::Result<()> {
    match made {
        Ok(c) => print!(rt; " runs {:x}", c.n)?,
        Err(e) => refused(rt, e)?,
    }
    let c = coverage::collect::or_empty(made);
    println!(rt;
        ": {:x} {:x}, {:x} {:x}",
        c.begins[0], c.ends[0], c.begins[1], c.ends[1]
    )
}

fn cover(rt: &impl Print, label: &[u8], kinds: &[u8], list: &[u8]) -> io::Result<()> {
    say(rt, label)?;
    let unit = unit(encoding(5, 4), list);
    made(
        rt,
        coverage::collect::range_coverage_by(list, &unit, RangeListsOffset(0), 0, kinds),
    )
}

fn number(rt: &impl Print, number: Read<u64>) -> io::Result<()> {
    match number {
        Ok((x, _)) => print!(rt; " {x:x}"),
        Err(e) => refused(rt, e),
    }
}

// The answer, the eleven bytes of the output, which a list of one range takes (its kind, begin, length and end mark), and what they cover
// in their turn.
fn canonical(rt: &impl Print, label: &[u8], kinds: &[u8], list: &[u8]) -> io::Result<()> {
    let mut out = [0xffu8; 11];
    say(rt, label)?;
    let unit = unit(encoding(5, 4), list);
    match canonical::of_list::canonical_ranges_by(
        list,
        &unit,
        RangeListsOffset(0),
        0,
        kinds,
        &mut out,
    ) {
        Ok(n) => print!(rt; " bytes {n:x}")?,
        Err(e) => refused(rt, e)?,
    }
    say(rt, b":")?;
    number(rt, section_bytes::reader::read_u8(&out, 0))?;
    number(
        rt,
        section_bytes::reader::read_u64(&out, 1, RunTimeEndian::Little),
    )?;
    number(rt, section_bytes::leb128::unsigned(&out, 9))?;
    number(rt, section_bytes::reader::read_u8(&out, 10))?;
    say(rt, b"; walked:")?;
    made(rt, coverage::collect::from_canonical(&out))
}

fn examples(rt: &impl Print) -> io::Result<()> {
    by_supplier(rt, b"\x14\x01\x05\x10")?;
    plain(rt, b"\x04\x01\x05\0")?;
    by_supplier(rt, b"\x17\x10\0\0\0\x08\x10")?;
    plain(rt, b"\x07\x10\0\0\0\x08\0")?;
    by_supplier(rt, b"\x14\x04\x05\x10")?;
    plain(rt, b"\x04\x04\x05\0")?;
    by_supplier(rt, b"\x14\x10\x14\x10")?;
    plain(rt, b"\x04\x10\x14\0")?;
    by_supplier(rt, b"\x10\x14")?;
    plain(rt, b"\0\x14")?;
    by_supplier(rt, b"\0")?;
    plain(rt, b"\xff")?;
    by_supplier(rt, b"\x04\x01\x05\0")?;
    plain(rt, b"\xff\x01\x05\0")?;
    by_supplier(rt, b"\x14\x01\x05\x99")?;
    plain(rt, b"\x04\x01\x05\xff")
}

fn other_kinds(rt: &impl Print) -> io::Result<()> {
    by_supplier(rt, b"\x11\x01\x14\0\x08\x10")?;
    plain(rt, b"\x01\x01\x04\0\x08\0")?;
    by_supplier(rt, b"\x15\0\x20\0\0\x14\x01\x82\0\x10")?;
    plain(rt, b"\x05\0\x20\0\0\x04\x01\x82\0\0")?;
    by_supplier(rt, b"\x16\x30\0\0\0\x40\0\0\0\x10")?;
    plain(rt, b"\x06\x30\0\0\0\x40\0\0\0\0")?;
    by_reversed(rt, b"\0\x10\0\0\0\x88\0\x07")?;
    plain(rt, b"\x07\x10\0\0\0\x88\0\0")?;
    by_reversed(rt, b"\x01\x10\0\x80\0\x80\0\x80\0\x07")?;
    plain(rt, b"\x06\x10\0\x80\0\x80\0\x80\0\0")?;
    by_reversed(rt, b"\x02\x80\0\x80\0\x03\x01\x82\0\x07")?;
    plain(rt, b"\x05\x80\0\x80\0\x04\x01\x82\0\0")?;
    by_reversed(rt, b"\x04\0\x88\0\x05\x80\0\x01\x07")?;
    plain(rt, b"\x03\0\x88\0\x02\x80\0\x01\0")?;
    by_reversed(rt, b"\x05\0\x02\x06\x01\x03\0\x08")?;
    plain(rt, b"\x02\0\x02\x01\x01\x04\0\x08")
}

// DWARF's own numbers, which change nothing.
fn same(rt: &impl Print, list: &[u8]) -> io::Result<()> {
    by_fixed(rt, list)?;
    plain(rt, list)
}

fn fixed_table(rt: &impl Print) -> io::Result<()> {
    same(rt, b"\x01\x01\x02\0\x01\x03\0\x08\0")?;
    same(rt, b"\x04\x01\x02\x05\0\x20\0\0\0\x04")?;
    same(rt, b"\x06\x30\0\0\0\x40\0\0\0\x07\x10\0\0\0\x08\0")?;
    same(rt, b"\x08\0")?;
    same(rt, b"\x14\x01\x05\x10")
}

fn unloaded(rt: &impl Print) -> io::Result<()> {
    by(rt, b"", b"\0")?;
    by(rt, b"\0", b"\x01\0\0")?;
    by(rt, b"\0\x08", b"\x01\0")?;
    by(rt, b"\0\xfe", b"\x01\0")?;
    by(rt, b"\0\0", b"\x01\x05")?;
    by(rt, b"\0\x01\x02\x03\x04", b"\x04\x01\x05\0")?;
    by(rt, b"\0\x01\x02\x03\x04", b"\x07\x10\0\0\0\x08\0")
}

// Bare pairs, version 6, and an address size that is refused.
fn encodings(rt: &impl Print, kinds: &[u8]) -> io::Result<()> {
    read(
        rt,
        b"version 4, size 2,",
        b"\x01\0\x02\0\0\0\0\0",
        encoding(4, 2),
        Some(kinds),
    )?;
    read(
        rt,
        b"version 6, size 4,",
        b"\x14\x01\x05\x10",
        encoding(6, 4),
        Some(kinds),
    )?;
    read(
        rt,
        b"version 5, size 5,",
        b"\0\x14",
        encoding(5, 5),
        Some(kinds),
    )
}

fn lookups_by(rt: &impl Print, supplier: &[u8], fixed: &[u8]) -> io::Result<()> {
    let list = b"\x16\x10\0\0\0\x20\0\0\0\x99";
    look_up(rt, b"look up 1f:", supplier, list, 0x1f)?;
    look_up(rt, b"look up 20:", supplier, list, 0x20)?;
    look_up(
        rt,
        b"look up 20, ended:",
        supplier,
        b"\x16\x10\0\0\0\x20\0\0\0\x10",
        0x20,
    )?;
    look_up(rt, b"look up 1f, fixed:", fixed, list, 0x1f)
}

fn coverages(rt: &impl Print, supplier: &[u8], fixed: &[u8]) -> io::Result<()> {
    let coded = b"\x17\x20\0\0\0\x10\x16\x10\0\0\0\x20\0\0\0\x14\x40\x50\x10";
    let plain = b"\x07\x20\0\0\0\x10\x06\x10\0\0\0\x20\0\0\0\x04\x40\x50\0";
    cover(rt, b"coverage:", supplier, coded)?;
    cover(rt, b"coverage, fixed:", fixed, plain)?;
    cover(rt, b"coverage, another's table:", supplier, plain)?;
    cover(rt, b"coverage, empty table:", b"", plain)?;
    let coded_run = b"\x17\x20\0\0\0\x10\x16\x10\0\0\0\x20\0\0\0\x10";
    let plain_run = b"\x07\x20\0\0\0\x10\x06\x10\0\0\0\x20\0\0\0\0";
    canonical(rt, b"canonical:", supplier, coded_run)?;
    canonical(rt, b"canonical, fixed:", fixed, plain_run)?;
    canonical(rt, b"canonical, another's table:", supplier, plain_run)
}

fn main(rt: HostRuntime) -> io::Result<()> {
    let supplier = loading::supplier();
    let fixed = loading::fixed();
    examples(&rt)?;
    other_kinds(&rt)?;
    fixed_table(&rt)?;
    unloaded(&rt)?;
    encodings(&rt, &supplier)?;
    encodings(&rt, &fixed)?;
    encodings(&rt, b"")?;
    lookups_by(&rt, &supplier, &fixed)?;
    coverages(&rt, &supplier, &fixed)?;
    loading::loadings(&rt)
}
