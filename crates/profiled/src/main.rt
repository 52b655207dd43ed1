// Lists in the profile, and by the ordinary calls. The file stdout has the answers by docs/SCOPE.md: of a list, behind what it is read with
// and its bytes, three calls in the profile and three ordinary ones, each with the walk then by its place, base address and count. Behind
// the bounds of a location stand the place and the length of its expression. All is hexadecimal but the number of a refusal, behind which
// its value stands, 0 where it has none.
#![tactic(auto)]

use entries::Lists;
use lists::{LocationListEntry, Range, Unit, Walk};
use section_bytes::common::{DebugAddrBase, DwarfFileType, Encoding, Format};
use section_bytes::endianity::RunTimeEndian;
use section_bytes::error::Error;
use std::io;

fn say(rt: &impl Print, text: &[u8]) -> io::Result<()> {
    rt.write_all(text)
}

fn print_bytes(rt: &impl Print, bytes: &[u8]) -> io::Result<()> {
    for &x in bytes {
        print!(rt; " {x:02x}")?;
    }
    Ok(())
}

// A range or a location.
trait Item: Copy {
    fn print(self, rt: &impl Print) -> io::Result<()>;
}

impl Item for Range {
    fn print(self, rt: &impl Print) -> io::Result<()> {
        print!(rt; " {:x} to {:x}", self.begin, self.end)
    }
}

impl Item for LocationListEntry {
    fn print(self, rt: &impl Print) -> io::Result<()> {
        self.range.print(rt)?;
        print!(rt; " by {:x} {:x}", self.data.offset, self.data.len)
    }
}

fn answered<I: Item>(
    rt: &impl Print,
    (answer, after): (Result<Option<I>, Error>, Walk),
) -> io::Result<Walk> {
    match answer {
        Ok(Some(item)) => item.print(rt)?,
        Ok(None) => say(rt, b" end")?,
        Err(e) => print!(rt; " refused {} {:x}", e.number(), e.value())?,
    }
    print!(rt;
        " ({:x}, {:x}, {:x})",
        after.at, after.base_address, after.entries
    )?;
    Ok(after)
}

fn ordinary(
    rt: &impl Print,
    unit: &Unit,
    lists: &Lists,
    list: &[u8],
    walk: Walk,
) -> io::Result<Walk> {
    match *lists {
        Lists::Ranges(None) => answered(rt, lists::rnglists::next(list, unit, walk)),
        Lists::Ranges(Some(kinds)) => {
            answered(rt, lists::rnglists::next_by(list, unit, walk, kinds))
        }
        Lists::Locations(file_type) => {
            answered(rt, lists::loclists::next(list, unit, walk, file_type))
        }
    }
}

fn in_profile(
    rt: &impl Print,
    unit: &Unit,
    lists: &Lists,
    list: &[u8],
    walk: Walk,
) -> io::Result<Walk> {
    match *lists {
        Lists::Ranges(None) => answered(rt, profile::next_range(list, unit, walk)),
        Lists::Ranges(Some(kinds)) => {
            answered(rt, profile::next_range_by(list, unit, walk, kinds))
        }
        Lists::Locations(file_type) => {
            answered(rt, profile::next_location(list, unit, walk, file_type))
        }
    }
}

fn each(
    rt: &impl Print,
    name: &[u8],
    unit: &Unit,
    lists: &Lists,
    base_address: u64,
    sections: &[&[u8]],
) -> io::Result<()> {
    let start = Walk {
        at: 0,
        base_address,
        entries: 0,
    };
    for &list in sections {
        say(rt, name)?;
        print_bytes(rt, list)?;
        say(rt, b";")?;
        let mut walk = start;
        for _ in 0..3 {
            walk = in_profile(rt, unit, lists, list, walk)?;
        }
        say(rt, b"; ordinary")?;
        walk = start;
        for _ in 0..3 {
            walk = ordinary(rt, unit, lists, list, walk)?;
        }
        say(rt, b"\n")?;
    }
    Ok(())
}

// The addresses of the table start at 8.
fn unit(version: u16, address_size: u8, endian: RunTimeEndian, debug_addr: &[u8]) -> Unit<'_> {
    Unit {
        encoding: Encoding {
            address_size,
            format: Format::Dwarf32,
            version,
        },
        endian,
        debug_addr,
        debug_addr_base: DebugAddrBase(8),
    }
}

// The table has two addresses, 10 and 20, behind its header.
fn little(version: u16, address_size: u8) -> Unit<'static> {
    let table = b"\x0c\0\0\0\x05\0\x04\0\x10\0\0\0\x20\0\0\0";
    unit(version, address_size, RunTimeEndian::Little, table)
}

fn ranges(
    rt: &impl Print,
    name: &[u8],
    version: u16,
    address_size: u8,
    base_address: u64,
    sections: &[&[u8]],
) -> io::Result<()> {
    let unit = little(version, address_size);
    each(
        rt,
        name,
        &unit,
        &Lists::Ranges(None),
        base_address,
        sections,
    )
}

fn locations(
    rt: &impl Print,
    name: &[u8],
    file_type: DwarfFileType,
    version: u16,
    address_size: u8,
    base_address: u64,
    sections: &[&[u8]],
) -> io::Result<()> {
    let unit = little(version, address_size);
    each(
        rt,
        name,
        &unit,
        &Lists::Locations(file_type),
        base_address,
        sections,
    )
}

// A padded number, before a lookup that fails; entries that can't be read; an address and an end mark, which have no padding. Base addresses
// at the tombstone bound, used and not, and begins there and below it. Ends below their begins, also behind a lookup that fails; an empty
// range.
fn plain(rt: &impl Print) -> io::Result<()> {
    ranges(
        rt,
        b"ranges:",
        5,
        4,
        0,
        &[
            b"\x07\x10\0\0\0\x01\x02\0\x82\0\0",
            b"\x04\x80",
            b"\x04\x80\0",
            b"\x06\x10\0\x80\0\x90\0\x80\0\0\x80\0",
            b"\x05\xfe\xff\xff\xff\x04\0\x01\0",
            b"\x05\xfe\xff\xff\xff\x07\x10\0\0\0\x01\0",
            b"\x05\xfe\xff\xff\xff\x02\0\x01\x03\0\x08\0",
            b"\x05\xfe\xff\xff\xff\x06\x10\0\0\0\x20\0\0\0\x05\xff\xff\xff\xff\0",
            b"\x06\xfe\xff\xff\xff\xff\xff\xff\xff\0",
            b"\x06\xfe\xff\xff\xff\xfe\xff\xff\xff\0",
            b"\x06\xfd\xff\xff\xff\xfe\xff\xff\xff\0",
            b"\x06\xff\xff\xff\xff\x10\0\0\0\0",
            b"\x06\x20\0\0\0\x10\0\0\0\0",
            b"\x02\x01\0\0",
            b"\x02\x02\0\x07\x10\0\0\0\x01\0",
            b"\x02\0\x02\x06\x20\0\0\0\x10\0\0\0\0",
            b"\x03\0\xf8\xff\xff\xff\x0f\0",
            b"\x06\x10\0\0\0\x10\0\0\0\x07\x10\0\0\0\x01\0",
        ],
    )
}

// Base addresses below the tombstone bound, at it and above it, with sums that wrap and sums that do not.
fn based(rt: &impl Print) -> io::Result<()> {
    ranges(
        rt,
        b"ranges, base 1000:",
        5,
        4,
        0x1000,
        &[
            b"\x04\x01\x82\0\0",
            b"\x04\x01\x02\x04\x02\x01\x04\x01\x02\0",
        ],
    )?;
    ranges(
        rt,
        b"ranges, base ffffff00:",
        5,
        4,
        0xffffff00,
        &[
            b"\x04\xfe\x01\xff\x01\0",
            b"\x04\x10\x90\x02\0",
            b"\x04\x80\x02\x90\x02\0",
        ],
    )?;
    ranges(
        rt,
        b"ranges, base fffffffd:",
        5,
        4,
        0xfffffffd,
        &[b"\x04\0\x01\0"],
    )?;
    ranges(
        rt,
        b"ranges, base fffffffe:",
        5,
        4,
        0xfffffffe,
        &[
            b"\x04\0\x01\0",
            b"\x04\x80\x02\x90\x02\0",
            b"\x04\x80\0\x81\0\0",
        ],
    )?;
    ranges(
        rt,
        b"ranges, base ffffffff:",
        5,
        4,
        0xffffffff,
        &[b"\x04\x90\x02\x80\x02\0"],
    )
}

// Bare pairs; other sizes, and one that is not read. A base address is not cut to the size.
fn sizes(rt: &impl Print) -> io::Result<()> {
    ranges(
        rt,
        b"ranges, version 4, size 2:",
        4,
        2,
        0,
        &[
            b"\xfe\xff\xfe\xff\0\0\0\0",
            b"\x03\0\x01\0\0\0\0\0",
            b"\xff\xff\xfe\xff\x10\0\x20\0\0\0\0\0",
            b"\xff\xff\xfe\xff\0\0\0\0",
            b"\x80\0\x80\0\x80\0\x81\0\0\0\0\0",
        ],
    )?;
    ranges(
        rt,
        b"ranges, version 4, size 2, base ff00:",
        4,
        2,
        0xff00,
        &[b"\xfe\0\xff\0\0\0\0\0", b"\x10\0\x10\x01\0\0\0\0"],
    )?;
    ranges(rt, b"ranges, size 1:", 5, 1, 0, &[b"\x07\xf0\x20\0"])?;
    ranges(
        rt,
        b"ranges, size 1, base 100:",
        5,
        1,
        0x100,
        &[b"\x04\0\x01\0"],
    )?;
    ranges(
        rt,
        b"ranges, size 3:",
        5,
        3,
        0,
        &[b"\x06\xfd\xff\xff\xfe\xff\xff\x06\xfe\xff\xff\xff\xff\xff\0"],
    )?;
    ranges(
        rt,
        b"ranges, size 8, base fffffffffffffffe:",
        5,
        8,
        0xfffffffffffffffe,
        &[b"\x04\x01\x02\0"],
    )?;
    ranges(
        rt,
        b"ranges, size 5, base 7:",
        5,
        5,
        7,
        &[b"\x04\x80\0\x80\0\0"],
    )
}

// No addresses; addresses by index at the tombstone bound, of four bytes and of three in the other order; the eight codes of kinds the other
// way round, kind 7 first.
fn tables(rt: &impl Print) -> io::Result<()> {
    each(
        rt,
        b"ranges, no table:",
        &unit(5, 4, RunTimeEndian::Little, b""),
        &Lists::Ranges(None),
        0,
        &[
            b"\x01\x80\0\x07\x10\0\0\0\x01\0",
            b"\x01\0\x07\x10\0\0\0\x01\0",
        ],
    )?;
    each(
        rt,
        b"ranges, row at the bound:",
        &unit(
            5,
            4,
            RunTimeEndian::Little,
            b"\0\0\0\0\0\0\0\0\x10\0\0\0\xfe\xff\xff\xff",
        ),
        &Lists::Ranges(None),
        0,
        &[
            b"\x01\x01\x04\0\x01\0",
            b"\x02\x01\0\0",
            b"\x02\x01\x02\x04\x01\x02\0",
            b"\x02\0\x01\0",
            b"\x03\x01\x01\0",
        ],
    )?;
    each(
        rt,
        b"ranges, size 3, big, row at the bound:",
        &unit(
            5,
            3,
            RunTimeEndian::Big,
            b"\0\0\0\0\0\0\0\0\0\0\x10\xff\xff\xfe",
        ),
        &Lists::Ranges(None),
        0,
        &[b"\x02\0\x01\x02\x01\0\0"],
    )?;
    each(
        rt,
        b"ranges by a table:",
        &unit(5, 4, RunTimeEndian::Little, b""),
        &Lists::Ranges(Some(b"\x07\x06\x05\x04\x03\x02\x01\0")),
        0,
        &[
            b"\x03\x01\x82\0\x07",
            b"\x02\xfe\xff\xff\xff\0\x10\0\0\0\x01\x03\0\x01\x07",
            b"\x08\x80\0",
        ],
    )
}

// A default location is kept whatever the base address, but the length of its expression can be padded; up to version 4 that is no LEB128
// number.
fn located(rt: &impl Print) -> io::Result<()> {
    locations(
        rt,
        b"locations:",
        DwarfFileType::Main,
        5,
        4,
        0,
        &[
            b"\x05\x81\0\x50\0",
            b"\x05\x81\0",
            b"\x06\xfe\xff\xff\xff\x04\0\x01\0\0",
            b"\x08\x10\0\0\0\x01\0\x07\x20\0\0\0\x10\0\0\0\x01\x50\0",
        ],
    )?;
    locations(
        rt,
        b"locations, base fffffffe:",
        DwarfFileType::Main,
        5,
        4,
        0xfffffffe,
        &[b"\x05\x01\x50\0"],
    )?;
    locations(
        rt,
        b"locations, split, version 4:",
        DwarfFileType::Dwo,
        4,
        4,
        0,
        &[
            b"\x03\0\x08\0\0\0\x01\0\x50\0",
            b"\x03\x80\0\x08\0\0\0\x01\0\x50\0",
        ],
    )?;
    locations(
        rt,
        b"locations, version 4, size 2:",
        DwarfFileType::Main,
        4,
        2,
        0,
        &[b"\x01\0\x02\0\x01\0\x50\x03\0\x01\0\0\0\0\0\0\0"],
    )
}

fn main(rt: HostRuntime) -> io::Result<()> {
    plain(&rt)?;
    based(&rt)?;
    sizes(&rt)?;
    tables(&rt)?;
    located(&rt)
}
