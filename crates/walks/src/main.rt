// Lists of three-byte addresses: walks, lookups and canonical lists, as docs/SCOPE.md has them for every address size. The file stdout
// has the answers by that page, in hexadecimal: ranges with the walk's place after them. Then walks and their counts (counts.rt).
#![tactic(auto)]

mod counts;

use lists::{Range, Unit, Walk};
use section_bytes::common::{DebugAddrBase, Encoding, Format, RangeListsOffset};
use section_bytes::endianity::RunTimeEndian;
use section_bytes::error::Error;
use section_bytes::{Read, leb128, reader};
use std::io;

// Two addresses, 10 and 20, behind their header.
const TABLE: &[u8] = b"\x0a\0\0\0\x05\0\x03\0\x10\0\0\x20\0\0";

fn unit(version: u16, address_size: u8, endian: RunTimeEndian, debug_addr: &[u8]) -> Unit<'_> {
    Unit {
        encoding: Encoding {
            address_size,
            format: Format::Dwarf32,
            version,
        },
        endian,
        debug_addr,
        debug_addr_base: DebugAddrBase(8),
    }
}

fn refused(rt: &impl Print, e: Error) -> io::Result<()> {
    print!(rt; " refused {:06x}", e.number())
}

fn step(rt: &impl Print, list: &[u8], unit: &Unit, walk: Walk) -> io::Result<Walk> {
    let (answer, after) = lists::rnglists::next(list, unit, walk);
    match answer {
        Ok(Some(Range { begin, end })) => {
            print!(rt; " {begin:06x} {end:06x} at {:06x},", after.at)?;
        }
        Ok(None) => print!(rt; " end at {:06x}", after.at)?,
        Err(e) => {
            refused(rt, e)?;
            print!(rt; ",")?;
        }
    }
    Ok(after)
}

// Two calls of next.
fn walk(
    rt: &impl Print,
    label: &str,
    list: &[u8],
    version: u16,
    base: u64,
    endian: RunTimeEndian,
) -> io::Result<()> {
    let unit = unit(version, 3, endian, TABLE);
    print!(rt; "{label}")?;
    match lists::rnglists::ranges(list, RangeListsOffset(0), unit.encoding, base) {
        Ok(start) => {
            let after = step(rt, list, &unit, start)?;
            step(rt, list, &unit, after)?;
        }
        Err(e) => refused(rt, e)?,
    }
    println!(rt)
}

fn little(rt: &impl Print, label: &str, list: &[u8], base: u64) -> io::Result<()> {
    walk(rt, label, list, 5, base, RunTimeEndian::Little)
}

fn open(
    rt: &impl Print,
    label: &str,
    list: &[u8],
    offset: u64,
    address_size: u8,
) -> io::Result<()> {
    let unit = unit(5, address_size, RunTimeEndian::Little, TABLE);
    print!(rt; "{label}")?;
    match lists::rnglists::ranges(list, RangeListsOffset(offset), unit.encoding, 0) {
        Ok(_) => print!(rt; " opened")?,
        Err(e) => refused(rt, e)?,
    }
    println!(rt)
}

fn look_up(rt: &impl Print, label: &str, list: &[u8], address: u64) -> io::Result<()> {
    let unit = unit(5, 3, RunTimeEndian::Little, TABLE);
    print!(rt; "{label}")?;
    match lookups::lookup_range(list, &unit, RangeListsOffset(0), 0, address) {
        Ok(Some(Range { begin, end })) => print!(rt; " {begin:06x} {end:06x}")?,
        Ok(None) => print!(rt; " not there")?,
        Err(e) => refused(rt, e)?,
    }
    println!(rt)
}

fn number(rt: &impl Print, answer: Read<u64>) -> io::Result<()> {
    match answer {
        Ok((x, _)) => print!(rt; " {x:06x}"),
        Err(e) => refused(rt, e),
    }
}

// How many bytes a canonical list of one range has, and what they are: its kind, begin, length and end mark.
fn canonical(rt: &impl Print, label: &str, list: &[u8], address_size: u8) -> io::Result<()> {
    let unit = unit(5, address_size, RunTimeEndian::Little, TABLE);
    let mut out = [0xffu8; 11];
    print!(rt; "{label}")?;
    match canonical::of_list::canonical_ranges(list, &unit, RangeListsOffset(0), 0, &mut out) {
        Ok(n) => {
            print!(rt; " {n:06x} bytes:")?;
            number(rt, reader::read_u8(&out, 0))?;
            number(rt, reader::read_u64(&out, 1, RunTimeEndian::Little))?;
            number(rt, leb128::unsigned(&out, 9))?;
            number(rt, reader::read_u8(&out, 10))?;
        }
        Err(e) => refused(rt, e)?,
    }
    println!(rt)
}

fn walks(rt: &impl Print) -> io::Result<()> {
    little(rt, "start and end:", b"\x06\x10\0\0\x20\0\0\0", 0)?;
    walk(
        rt,
        "big:",
        b"\x06\0\0\x10\0\0\x20\0",
        5,
        0,
        RunTimeEndian::Big,
    )?;
    little(rt, "each byte:", b"\x06\x01\x02\x03\x04\x05\x06\0", 0)?;
    walk(
        rt,
        "each byte, big:",
        b"\x06\x01\x02\x03\x04\x05\x06\0",
        5,
        0,
        RunTimeEndian::Big,
    )?;
    little(rt, "base below the bound:", b"\x04\0\x01\0", 0xfffffd)?;
    little(rt, "base at the bound:", b"\x04\0\x01\0", 0xfffffe)?;
    little(rt, "sum of 24 bits:", b"\x04\x80\x02\x90\x02\0", 0xffff00)?;
    little(rt, "to the last address:", b"\x07\xf0\xff\xff\x0f\0", 0)?;
    little(rt, "past it:", b"\x07\xf0\xff\xff\x10\0", 0)?;
    walk(
        rt,
        "bare pairs:",
        b"\xff\xff\xff\0\x20\0\x01\0\0\x03\0\0\0\0\0\0\0\0",
        4,
        0,
        RunTimeEndian::Little,
    )?;
    little(rt, "cut:", b"\x06\x10\0", 0)?;
    little(rt, "by index:", b"\x02\0\x01\0", 0)?;
    little(rt, "index past the table:", b"\x02\0\x02\0", 0)
}

fn calls(rt: &impl Print) -> io::Result<()> {
    open(rt, "offset past the section:", b"", 1, 3)?;
    open(rt, "another size:", b"", 1, 5)?;
    look_up(rt, "look up 1f:", b"\x06\x10\0\0\x20\0\0\0", 0x1f)?;
    look_up(rt, "look up 20:", b"\x06\x10\0\0\x20\0\0\0", 0x20)?;
    canonical(
        rt,
        "canonical, size 3:",
        b"\x06\x20\0\0\x30\0\0\x06\x10\0\0\x20\0\0\0",
        3,
    )?;
    canonical(rt, "canonical, size 4:", b"\x06\x10\0\0\0\x30\0\0\0\0", 4)
}

fn main(rt: HostRuntime) -> io::Result<()> {
    walks(&rt)?;
    calls(&rt)?;
    counts::counts(&rt)
}
