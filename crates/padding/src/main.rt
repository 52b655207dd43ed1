// LEB128 numbers with their lengths, and raw entries with their padding: of range lists, then of location lists (locations.rt). The file
// stdout has the answers by docs/SCOPE.md, all hexadecimal: behind what was read the place after it and whether it was padded, behind the
// number of a refusal its value, 0 where it has none. Of a list it has the raw reader's answer and those of three calls of a walk.
#![tactic(auto)]

mod locations;

use entries::{Lists, Noted, RawLocListEntry, RawRngListEntry};
use lists::Walk;
use section_bytes::common::{Encoding, Format};
use section_bytes::endianity::RunTimeEndian;
use section_bytes::error::Error;
use std::io;

fn say(rt: &impl Print, text: &[u8]) -> io::Result<()> {
    rt.write_all(text)
}

fn line(rt: &impl Print, bytes: &[u8], at: usize) -> io::Result<()> {
    for &x in bytes {
        print!(rt; "{x:02x} ")?;
    }
    print!(rt; "at {at:x}:")
}

fn setting(rt: &impl Print, version: u16, address_size: u8) -> io::Result<()> {
    print!(rt; "version {version:x}, size {address_size:x}: ")
}

fn read(rt: &impl Print, after: usize, padded: bool) -> io::Result<()> {
    let padded = if padded { ", padded" } else { "" };
    print!(rt; " ({after:x}{padded})")
}

fn refused(rt: &impl Print, e: Error) -> io::Result<()> {
    print!(rt; " refused {:x} {:x}", e.number(), e.value())
}

fn number(rt: &impl Print, section: &[u8], at: usize) -> io::Result<()> {
    line(rt, section, at)?;
    match section_bytes::leb128::with_length(section, at) {
        Ok((x, after)) => {
            print!(rt; " {:x}, length {:x}", x.value, x.len)?;
            read(rt, after, x.padded)?;
        }
        Err(e) => refused(rt, e)?,
    }
    say(rt, b"\n")
}

fn encoding(version: u16, address_size: u8) -> Encoding {
    Encoding {
        address_size,
        format: Format::Dwarf32,
        version,
    }
}

// An entry of either list, with the place after it and whether it was padded.
trait Entry: Copy {
    fn print(self, rt: &impl Print, after: usize, padded: bool) -> io::Result<()>;
}

impl Entry for RawRngListEntry {
    fn print(self, rt: &impl Print, after: usize, padded: bool) -> io::Result<()> {
        match self {
            RawRngListEntry::AddressOrOffsetPair(b, e) => print!(rt; " pair {b:x} {e:x}")?,
            RawRngListEntry::BaseAddress(a) => print!(rt; " base {a:x}")?,
            RawRngListEntry::BaseAddressx(i) => print!(rt; " base by index {:x}", i.0)?,
            RawRngListEntry::StartxEndx(i, j) => print!(rt;
                " start and end by index {:x} {:x}",
                i.0, j.0
            )?,
            RawRngListEntry::StartxLength(i, n) => print!(rt;
                " start by index and length {:x} {n:x}",
                i.0
            )?,
            RawRngListEntry::OffsetPair(b, e) => print!(rt; " offsets {b:x} {e:x}")?,
            RawRngListEntry::StartEnd(b, e) => print!(rt; " start and end {b:x} {e:x}")?,
            RawRngListEntry::StartLength(b, n) => print!(rt; " start and length {b:x} {n:x}")?,
        }
        read(rt, after, padded)
    }
}

impl Entry for RawLocListEntry {
    fn print(self, rt: &impl Print, after: usize, padded: bool) -> io::Result<()> {
        entries::raw::bounds_of(self).print(rt, after, padded)?;
        let x = lists::convert::expression_of(self);
        print!(rt; " expression {:x} {:x}", x.offset, x.len)
    }
}

fn raw_entry<E: Entry>(
    rt: &impl Print,
    answer: Result<Option<(Noted<E>, usize)>, Error>,
) -> io::Result<()> {
    match answer {
        Ok(Some((noted, after))) => noted.entry.print(rt, after, noted.padded),
        Ok(None) => say(rt, b" end"),
        Err(e) => refused(rt, e),
    }
}

fn step<E: Entry>(
    rt: &impl Print,
    (answer, after): (Result<Option<Noted<E>>, Error>, Walk),
) -> io::Result<Walk> {
    match answer {
        Ok(Some(noted)) => noted.entry.print(rt, after.at, noted.padded)?,
        Ok(None) => {
            say(rt, b" end")?;
            read(rt, after.at, false)?;
        }
        Err(e) => {
            refused(rt, e)?;
            read(rt, after.at, false)?;
        }
    }
    Ok(after)
}

fn read_list(
    rt: &impl Print,
    lists: &Lists,
    list: &[u8],
    at: usize,
    p: Encoding,
    endian: RunTimeEndian,
) -> io::Result<()> {
    line(rt, list, at)?;
    let mut walk = Walk {
        at,
        base_address: 0,
        entries: 0,
    };
    match *lists {
        Lists::Ranges(_) => {
            raw_entry(rt, entries::rnglists::raw_range_entry(list, at, p, endian))?;
            say(rt, b";")?;
            for _ in 0..3 {
                walk = step(rt, lists::rnglists::next_raw(list, walk, p, endian))?;
            }
        }
        Lists::Locations(file) => {
            raw_entry(
                rt,
                entries::loclists::raw_location_entry(list, at, p, endian, file),
            )?;
            say(rt, b";")?;
            for _ in 0..3 {
                walk = step(rt, lists::loclists::next_raw(list, walk, p, endian, file))?;
            }
        }
    }
    say(rt, b"\n")
}

fn from(rt: &impl Print, at: usize, list: &[u8]) -> io::Result<()> {
    read_list(
        rt,
        &Lists::Ranges(None),
        list,
        at,
        encoding(5, 4),
        RunTimeEndian::Little,
    )
}

fn range(rt: &impl Print, list: &[u8]) -> io::Result<()> {
    from(rt, 0, list)
}

fn sized_list(
    rt: &impl Print,
    lists: &Lists,
    version: u16,
    address_size: u8,
    list: &[u8],
) -> io::Result<()> {
    setting(rt, version, address_size)?;
    let p = encoding(version, address_size);
    read_list(rt, lists, list, 0, p, RunTimeEndian::Little)
}

fn sized(rt: &impl Print, version: u16, address_size: u8, list: &[u8]) -> io::Result<()> {
    sized_list(rt, &Lists::Ranges(None), version, address_size, list)
}

fn big(rt: &impl Print, list: &[u8]) -> io::Result<()> {
    say(rt, b"big: ")?;
    read_list(
        rt,
        &Lists::Ranges(None),
        list,
        0,
        encoding(5, 4),
        RunTimeEndian::Big,
    )
}

fn numbers(rt: &impl Print) -> io::Result<()> {
    number(rt, b"\0", 0)?;
    number(rt, b"\x7f", 0)?;
    number(rt, b"\x80\x01", 0)?;
    number(rt, b"\x80\0", 0)?;
    number(rt, b"\x82\0", 0)?;
    number(rt, b"\xff\x7f", 0)?;
    number(rt, b"\x81\x80\0", 0)?;
    number(rt, b"\x80\x80\x80\x80\x80\x80\x80\x80\x80\x01", 0)?;
    number(rt, b"\x80\x80\x80\x80\x80\x80\x80\x80\x80\0", 0)?;
    number(rt, b"\xff\xff\xff\xff\xff\xff\xff\xff\xff\x01", 0)?;
    number(rt, b"\xff\xff\xff\xff\xff\xff\xff\xff\x7f", 0)?;
    number(rt, b"\x80\x80\x80\x80\x80\x80\x80\x80\x80\x02", 0)?;
    number(rt, b"\x80", 0)?;
    number(rt, b"\xff\xff\xff\xff\xff\xff\xff\xff\xff\0", 0)?;
    number(rt, b"\x80\x81\0", 0)?;
    number(rt, b"\0\0", 0)?;
    number(rt, b"\x80\x01\0", 0)?;
    number(rt, b"\x80\0\x01", 0)?;
    number(rt, b"\x80\x80\0", 1)?;
    number(rt, b"\x80\x80\0", 2)?;
    number(rt, b"\x80\x80\0", 3)
}

fn examples(rt: &impl Print) -> io::Result<()> {
    range(rt, b"\x04\x01\x82\0\0")?;
    range(rt, b"\x04\x01\x02\0")?;
    range(rt, b"\x01\x80\0\0")?;
    range(rt, b"\x07\x10\0\0\0\x90\0\0")?;
    range(rt, b"\x06\x10\0\0\0\x20\0\0\0\0")?;
    range(rt, b"\x04\x80\0")?;
    sized(rt, 4, 2, b"\x01\0\x02\0\0\0\0\0")
}

// Each number of each kind padded by itself, and both; addresses with the bytes of a padded number; longer numbers; other sizes, orders
// and versions.
fn kinds(rt: &impl Print) -> io::Result<()> {
    range(rt, b"\x01\x80\0\x01\0\x01\xff\0")?;
    range(rt, b"\x02\0\x01\x02\x80\0\x01\x02\0\x81\0")?;
    range(rt, b"\x03\0\x08\x03\x80\0\x08\x03\0\x88\0")?;
    range(rt, b"\x04\x81\0\x02\x04\x01\x82\0\x04\x81\0\x82\0")?;
    range(rt, b"\x05\x80\0\x80\0\x06\x80\0\x80\0\x80\0\x80\0\0\x80")?;
    range(rt, b"\x07\x80\0\x80\0\x10\x07\x10\0\0\0\x90\0")?;
    range(
        rt,
        b"\x02\x80\x01\xff\x7f\x03\x80\x01\xff\x7f\x04\x80\x01\xff\x7f",
    )?;
    range(
        rt,
        b"\x02\x80\x01\x82\0\x03\x80\x80\0\x80\x02\x04\xff\0\xff\xff\0",
    )?;
    range(
        rt,
        b"\x07\x10\0\0\0\x80\x01\x07\x10\0\0\0\x80\x81\0\x01\x80\x01",
    )?;
    range(
        rt,
        b"\x01\x80\x80\x80\x80\x80\x80\x80\x80\x80\x01\x01\x80\x80\x80\x80\x80\x80\x80\x80\x80\0",
    )?;
    sized(rt, 5, 3, b"\x07\x10\x80\0\x10\x07\x10\x80\0\x90\0")?;
    sized(
        rt,
        5,
        8,
        b"\x07\x10\0\0\0\0\0\x80\0\x10\x07\x10\0\0\0\0\0\0\0\x90\0",
    )?;
    big(rt, b"\x07\0\0\x80\0\x10\x07\0\0\0\x10\x90\0")?;
    from(rt, 3, b"\x04\x01\x02\x04\x81\0\x02")?;
    sized(rt, 6, 4, b"\x04\x01\x02\x04\x01\x82\0")?;
    sized(rt, 4, 2, b"\x01\x80\0\x90\xff\xff\x80\0\0\0\0\0")
}

// No entry, no flag. At size 5 a kind without an address can be read, but not by a walk.
fn no_entry(rt: &impl Print) -> io::Result<()> {
    range(rt, b"\x04\x80\0\x80\x80\x80\x80\x80\x80\x80\x80\x80\x02")?;
    range(rt, b"\x07\x10\0\0\0\x80")?;
    range(rt, b"\x08\x80\0")?;
    range(rt, b"\0\x80\0")?;
    from(rt, 3, b"\x04\x80\0")?;
    sized(rt, 5, 5, b"\x07\x10\0\0\0\0\x90\0")?;
    sized(rt, 5, 5, b"\x01\x80\0")
}

fn main(rt: HostRuntime) -> io::Result<()> {
    numbers(&rt)?;
    examples(&rt)?;
    kinds(&rt)?;
    no_entry(&rt)?;
    locations::locations(&rt)
}
