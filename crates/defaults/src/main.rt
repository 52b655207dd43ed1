// Lookups in location lists with default locations, at eight addresses each, and what walks give for such lists. The file stdout has the
// answers by docs/SCOPE.md: behind an address the range found, then the place and the bytes of its expression. All is hexadecimal but the
// number of a refusal, behind which its value stands, 0 where it has none.
#![tactic(auto)]

use lists::{LocationListEntry, Unit, Walk};
use section_bytes::common::{DebugAddrBase, DwarfFileType, Encoding, Format, LocationListsOffset};
use section_bytes::endianity::RunTimeEndian;
use section_bytes::error::Error;
use std::io;

fn say(rt: &impl Print, text: &[u8]) -> io::Result<()> {
    rt.write_all(text)
}

fn refused(rt: &impl Print, e: Error) -> io::Result<()> {
    print!(rt; " refused {} {:x}", e.number(), e.value())
}

fn location(rt: &impl Print, list: &[u8], x: LocationListEntry) -> io::Result<()> {
    let data = x.data;
    print!(rt;
        " {:x} {:x}, expression at {:x}:",
        x.range.begin, x.range.end, data.offset
    )?;
    for &byte in lists::loclists::expression(list, data) {
        print!(rt; " {byte:02x}")?;
    }
    Ok(())
}

// The table has two addresses, 10 and 20, behind its header.
fn unit(version: u16, address_size: u8, endian: RunTimeEndian) -> Unit<'static> {
    Unit {
        encoding: Encoding {
            address_size,
            format: Format::Dwarf32,
            version,
        },
        endian,
        debug_addr: b"\x0c\0\0\0\x05\0\x04\0\x10\0\0\0\x20\0\0\0",
        debug_addr_base: DebugAddrBase(8),
    }
}

fn look_up(
    rt: &impl Print,
    name: &[u8],
    list: &[u8],
    offset: u64,
    unit: &Unit,
    file_type: DwarfFileType,
    address: u64,
) -> io::Result<()> {
    say(rt, name)?;
    print!(rt; ", {address:x}:")?;
    let offset = LocationListsOffset(offset);
    match lookups::lookup_location(list, unit, offset, 0, file_type, address) {
        Ok(Some(x)) => location(rt, list, x)?,
        Ok(None) => say(rt, b" not there")?,
        Err(e) => refused(rt, e)?,
    }
    say(rt, b"\n")
}

fn each(
    rt: &impl Print,
    name: &[u8],
    list: &[u8],
    unit: &Unit,
    file_type: DwarfFileType,
) -> io::Result<()> {
    for address in [0, 5, 0xf, 0x10, 0x1f, 0x20, u64::MAX - 1, u64::MAX] {
        look_up(rt, name, list, 0, unit, file_type, address)?;
    }
    Ok(())
}

fn sized(
    rt: &impl Print,
    name: &[u8],
    version: u16,
    address_size: u8,
    list: &[u8],
) -> io::Result<()> {
    let unit = unit(version, address_size, RunTimeEndian::Little);
    each(rt, name, list, &unit, DwarfFileType::Main)
}

fn plain(rt: &impl Print, name: &[u8], list: &[u8]) -> io::Result<()> {
    sized(rt, name, 5, 4, list)
}

fn split(rt: &impl Print, name: &[u8], version: u16, list: &[u8]) -> io::Result<()> {
    let unit = unit(version, 4, RunTimeEndian::Little);
    each(rt, name, list, &unit, DwarfFileType::Dwo)
}

fn big(
    rt: &impl Print,
    name: &[u8],
    version: u16,
    file_type: DwarfFileType,
    list: &[u8],
) -> io::Result<()> {
    let unit = unit(version, 4, RunTimeEndian::Big);
    each(rt, name, list, &unit, file_type)
}

fn examples(rt: &impl Print) -> io::Result<()> {
    plain(
        rt,
        b"first",
        b"\x05\x01\x50\x07\x10\0\0\0\x20\0\0\0\x01\x51\0",
    )?;
    plain(rt, b"refused behind", b"\x05\x01\x50\x09")?;
    plain(
        rt,
        b"last, refused behind",
        b"\x07\x10\0\0\0\x20\0\0\0\x01\x51\x05\x01\x50\x09",
    )?;
    plain(rt, b"twice", b"\x05\x01\x50\x05\x01\x52\0")?;
    plain(rt, b"no row behind", b"\x05\x01\x50\x02\0\x02\x01\x51\0")?;
    sized(
        rt,
        b"bounded to the end",
        5,
        8,
        b"\x05\x01\x50\x07\0\0\0\0\0\0\0\0\xff\xff\xff\xff\xff\xff\xff\xff\x01\x51\0",
    )?;
    plain(rt, b"no mark", b"\x05\x01\x50")?;
    split(rt, b"split, version 4", 4, b"\x05\x01\0\x50\0")
}

// Bounded entries around two default ones; entries that hold nothing, an empty one and one of removed code; a base address and rows
// behind a default; bounded entries to the end of all addresses by kind 8 and as a bare pair; another size and order; no default.
fn more(rt: &impl Print) -> io::Result<()> {
    plain(
        rt,
        b"around two",
        b"\x08\x05\0\0\0\x01\x01\x53\x05\x02\x50\x51\x08\x10\0\0\0\x10\0\x05\x01\x52\x08\x0f\0\0\0\x01\0\0\x09",
    )?;
    plain(
        rt,
        b"empty, removed",
        b"\x07\x10\0\0\0\x10\0\0\0\0\x08\xff\xff\xff\xff\x01\0\x05\x01\x50",
    )?;
    plain(
        rt,
        b"base address and rows",
        b"\x05\0\x01\0\x04\0\x01\x01\x51\x02\0\x01\x01\x52\x01\x02",
    )?;
    sized(
        rt,
        b"by its length",
        6,
        8,
        b"\x08\0\0\0\0\0\0\0\0\xff\xff\xff\xff\xff\xff\xff\xff\xff\x01\x01\x51\x05\0\x09",
    )?;
    sized(
        rt,
        b"bare pair",
        4,
        8,
        b"\0\0\0\0\0\0\0\0\xff\xff\xff\xff\xff\xff\xff\xff\x01\0\x51\x05",
    )?;
    sized(
        rt,
        b"three bytes",
        5,
        3,
        b"\x05\x01\x50\x07\0\0\0\xff\xff\xff\0",
    )?;
    big(
        rt,
        b"big",
        5,
        DwarfFileType::Main,
        b"\x05\x01\x50\x07\0\0\0\x10\0\0\0\x20\x01\x51\0",
    )?;
    plain(
        rt,
        b"no default",
        b"\x07\x10\0\0\0\x20\0\0\0\x01\x51\0\x05\0",
    )
}

fn splits(rt: &impl Print) -> io::Result<()> {
    split(
        rt,
        b"split, version 3",
        3,
        b"\x05\x01\0\x50\x07\x10\0\0\0\x20\0\0\0\x01\0\x51\0",
    )?;
    split(
        rt,
        b"split, version 5",
        5,
        b"\x05\x01\x50\x07\x10\0\0\0\x20\0\0\0\x01\x51\0",
    )?;
    big(
        rt,
        b"split, version 4, big",
        4,
        DwarfFileType::Dwo,
        b"\x05\0\x01\x50\x07\0\0\0\x10\0\0\0\x20\0\x01\x51\x09",
    )
}

fn from(rt: &impl Print, name: &[u8], offset: u64, address_size: u8) -> io::Result<()> {
    let unit = unit(5, address_size, RunTimeEndian::Little);
    look_up(rt, name, b"\x05\0", offset, &unit, DwarfFileType::Main, 5)
}

// At the section's end there is a list without entries, and past it none.
fn openings(rt: &impl Print) -> io::Result<()> {
    from(rt, b"at the end", 2, 4)?;
    from(rt, b"past the end", 3, 4)?;
    from(rt, b"size 6", 3, 6)
}

// Each entry at its place. No table of addresses is needed.
fn walk(rt: &impl Print, name: &[u8], list: &[u8]) -> io::Result<()> {
    say(rt, name)?;
    say(rt, b":")?;
    let unit = Unit {
        debug_addr: b"",
        debug_addr_base: DebugAddrBase(0),
        ..unit(5, 4, RunTimeEndian::Little)
    };
    let mut walk = Walk {
        at: 0,
        base_address: 0,
        entries: 0,
    };
    for _ in 0..3 {
        let (answer, after) = lists::loclists::next(list, &unit, walk, DwarfFileType::Main);
        match answer {
            Ok(Some(x)) => {
                location(rt, list, x)?;
                say(rt, b";")?;
            }
            Ok(None) => say(rt, b" end\n")?,
            Err(e) => {
                refused(rt, e)?;
                say(rt, b"\n")?;
            }
        }
        walk = after;
    }
    Ok(())
}

fn main(rt: HostRuntime) -> io::Result<()> {
    examples(&rt)?;
    more(&rt)?;
    splits(&rt)?;
    openings(&rt)?;
    walk(
        &rt,
        b"walk",
        b"\x05\x01\x50\x07\x10\0\0\0\x20\0\0\0\x01\x51\0",
    )?;
    walk(&rt, b"walk, twice", b"\x05\x01\x50\x05\x01\x52\x09")
}
