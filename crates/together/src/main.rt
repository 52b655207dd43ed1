// Addresses that are looked up together, in range lists and location lists. The file stdout has the answers by docs/SCOPE.md. Behind a
// list's bytes stands each place whose words are not those of the place before it, with its address and its words, and at the end how
// many entries were read, or the refusal of the call. Bytes, addresses and words are hexadecimal.
#![tactic(auto)]

use entries::Lists;
use lists::Unit;
use section_bytes::common::{
    DebugAddrBase, DwarfFileType, Encoding, Format, LocationListsOffset, RangeListsOffset,
};
use section_bytes::endianity::RunTimeEndian;
use stacks::MOST;
use stacks::answers::Rows;
use std::io;

const WORDS: usize = 6;

fn say(rt: &impl Print, text: &[u8]) -> io::Result<()> {
    rt.write_all(text)
}

fn print_list(rt: &impl Print, name: &[u8], list: &[u8]) -> io::Result<()> {
    say(rt, name)?;
    for &x in list {
        print!(rt; " {x:02x}")?;
    }
    Ok(())
}

// What the first word of an answer says.
fn found(rt: &impl Print, first: u64) -> io::Result<()> {
    match first {
        0 => say(rt, b" found"),
        3 => say(rt, b" not there"),
        _ if first % 0x1_0000_0000 == 4 => print!(rt; " refused {}", first / 0x1_0000_0000),
        _ => print!(rt; " left {first:x}"),
    }
}

// A place, with its address if it has one.
fn place(rt: &impl Print, i: usize, addresses: &[u64], row: &[u64; WORDS]) -> io::Result<()> {
    print!(rt; "; {i}")?;
    if let Some(&address) = addresses.get(i) {
        print!(rt; ": {address:x}")?;
    }
    found(rt, row[0])?;
    for &word in &row[1..] {
        print!(rt; " {word:x}")?;
    }
    Ok(())
}

fn places(rt: &impl Print, addresses: &[u64], rows: &Rows) -> io::Result<()> {
    place(rt, 0, addresses, &rows[0])?;
    for i in 1..MOST {
        if rows[i] != rows[i - 1] {
            place(rt, i, addresses, &rows[i])?;
        }
    }
    Ok(())
}

// The table has two addresses, 10 and 20, behind its header.
fn unit(version: u16, address_size: u8) -> Unit<'static> {
    Unit {
        encoding: Encoding {
            address_size,
            format: Format::Dwarf32,
            version,
        },
        endian: RunTimeEndian::Little,
        debug_addr: b"\x0c\0\0\0\x05\0\x04\0\x10\0\0\0\x20\0\0\0",
        debug_addr_base: DebugAddrBase(8),
    }
}

fn look_up(
    rt: &impl Print,
    name: &[u8],
    unit: &Unit,
    lists: &Lists,
    offset: u64,
    list: &[u8],
    addresses: &[u64],
) -> io::Result<()> {
    print_list(rt, name, list)?;
    // What stands at the places before.
    let mut rows = [[1, 2, 3, 4, 5, 6]; MOST];
    let read = match *lists {
        Lists::Ranges(None) => stacks::lookup_ranges(
            list,
            unit,
            RangeListsOffset(offset),
            0,
            addresses,
            &mut rows,
        ),
        Lists::Ranges(Some(kinds)) => stacks::lookup_ranges_by(
            list,
            unit,
            RangeListsOffset(offset),
            0,
            kinds,
            addresses,
            &mut rows,
        ),
        Lists::Locations(file_type) => stacks::lookup_locations(
            list,
            unit,
            LocationListsOffset(offset),
            0,
            file_type,
            addresses,
            &mut rows,
        ),
    };
    places(rt, addresses, &rows)?;
    match read {
        Ok(n) => print!(rt; "; read {n}")?,
        Err(e) => print!(rt; "; refused {}", e.number())?,
    }
    say(rt, b"\n")
}

fn ranges(
    rt: &impl Print,
    name: &[u8],
    unit: &Unit,
    offset: u64,
    list: &[u8],
    addresses: &[u64],
) -> io::Result<()> {
    look_up(
        rt,
        name,
        unit,
        &Lists::Ranges(None),
        offset,
        list,
        addresses,
    )
}

fn plain(rt: &impl Print, list: &[u8], addresses: &[u64]) -> io::Result<()> {
    ranges(rt, b"ranges:", &unit(5, 4), 0, list, addresses)
}

// By the eight codes the other way round, kind 7 first.
fn by_table(rt: &impl Print, list: &[u8], addresses: &[u64]) -> io::Result<()> {
    let unit = Unit {
        debug_addr: list,
        debug_addr_base: DebugAddrBase(0),
        ..unit(5, 4)
    };
    let lists = Lists::Ranges(Some(b"\x07\x06\x05\x04\x03\x02\x01\0"));
    look_up(rt, b"ranges by a table:", &unit, &lists, 0, list, addresses)
}

fn locations(
    rt: &impl Print,
    name: &[u8],
    unit: &Unit,
    file_type: DwarfFileType,
    list: &[u8],
    addresses: &[u64],
) -> io::Result<()> {
    look_up(
        rt,
        name,
        unit,
        &Lists::Locations(file_type),
        0,
        list,
        addresses,
    )
}

fn located(rt: &impl Print, list: &[u8], addresses: &[u64]) -> io::Result<()> {
    locations(
        rt,
        b"locations:",
        &unit(5, 4),
        DwarfFileType::Main,
        list,
        addresses,
    )
}

// 10 to 20, 30 to 40, and a kind that there is not.
fn damaged(rt: &impl Print, addresses: &[u64]) -> io::Result<()> {
    plain(rt, b"\x07\x10\0\0\0\x10\x07\x30\0\0\0\x10\x08", addresses)
}

fn few(rt: &impl Print) -> io::Result<()> {
    damaged(rt, &[])?;
    damaged(rt, &[0x10])?;
    damaged(rt, &[0x10, 0x10, 0x1f])?;
    damaged(rt, &[0x10, 0x35])
}

fn between(rt: &impl Print) -> io::Result<()> {
    damaged(rt, &[0x10, 0x20, 0x35])?;
    damaged(rt, &[0x20])?;
    damaged(rt, &[0x35, 0x10])
}

// 64 addresses, 65, and 65 of which the last is below the one before it.
fn many(rt: &impl Print) -> io::Result<()> {
    let most = [1u64; MOST];
    damaged(rt, &most)?;
    let mut more = [1u64; MOST + 1];
    damaged(rt, &more)?;
    more[MOST] = 0;
    damaged(rt, &more)
}

fn of_size_5(rt: &impl Print, addresses: &[u64]) -> io::Result<()> {
    ranges(rt, b"ranges, size 5:", &unit(5, 5), 0, b"\0", addresses)
}

// Lists that are not opened.
fn unopened(rt: &impl Print) -> io::Result<()> {
    of_size_5(rt, &[1])?;
    of_size_5(rt, &[])?;
    ranges(rt, b"ranges, from 2 on:", &unit(5, 4), 2, b"\0", &[1, 2])
}

// A list of the end mark alone, and one without it.
fn ends(rt: &impl Print) -> io::Result<()> {
    plain(rt, b"\0", &[5])?;
    plain(rt, b"\x07\x10\0\0\0\x10\x07\x30\0\0\0\x10", &[0x50])
}

fn default_first(rt: &impl Print, addresses: &[u64]) -> io::Result<()> {
    located(
        rt,
        b"\x05\x01\x50\x07\x10\0\0\0\x20\0\0\0\x01\x51\0",
        addresses,
    )
}

fn default_damaged(rt: &impl Print, addresses: &[u64]) -> io::Result<()> {
    located(
        rt,
        b"\x05\x01\x50\x07\x10\0\0\0\x20\0\0\0\x01\x51\x09",
        addresses,
    )
}

fn defaults(rt: &impl Print) -> io::Result<()> {
    default_first(rt, &[0, 0x10, 0x20, 0xffff_ffff_ffff_ffff])?;
    default_first(rt, &[0x10, 0x1f])?;
    default_damaged(rt, &[0, 0x10])?;
    default_damaged(rt, &[0x10])
}

// A row that the table doesn't have, between two ranges.
fn failed(rt: &impl Print) -> io::Result<()> {
    let list = b"\x04\x10\x20\x02\0\x02\x04\x30\x40\0";
    plain(rt, list, &[5, 0x10, 0x35])?;
    plain(rt, list, &[0x10, 0x1f])
}

fn numbers() -> [u64; MOST] {
    let mut all = [0u64; MOST];
    for i in 0..MOST {
        all[i] = i as u64;
    }
    all
}

// Ranges that overlap; such as hold all numbers from 0 to 3f; locations, two of them default ones.
fn overlapping(rt: &impl Print, all: &[u64]) -> io::Result<()> {
    plain(
        rt,
        b"\x04\x10\x20\x04\x08\x18\x04\x18\x30\x04\x05\x06\x04\x28\x3f\0",
        all,
    )?;
    plain(
        rt,
        b"\x04\x10\x20\x04\x08\x18\x04\x18\x30\x04\x05\x06\x04\0\x40\x08",
        all,
    )?;
    located(
        rt,
        b"\x04\x10\x20\x01\x51\x05\x01\x50\x04\x08\x18\0\x05\x01\x52\x04\x18\x30\x01\x53\0",
        all,
    )
}

// Ranges in descending order; ranges in one another, the widest first and the narrowest first.
fn ordered(rt: &impl Print, all: &[u64]) -> io::Result<()> {
    plain(rt, b"\x04\x30\x3f\x04\x20\x28\x04\x10\x18\x04\0\x08\0", all)?;
    plain(rt, b"\x04\x10\x30\x04\x18\x28\x04\x1c\x1e\0", all)?;
    plain(rt, b"\x04\x1c\x1e\x04\x18\x28\x04\x10\x30\0", all)
}

// Bare pairs with a base address among them; addresses of three bytes.
fn sizes(rt: &impl Print) -> io::Result<()> {
    ranges(
        rt,
        b"ranges, version 4, size 2:",
        &unit(4, 2),
        0,
        b"\x10\0\x20\0\xff\xff\0\x10\x10\0\x20\0\0\0\0\0",
        &[0x10, 0x20, 0x1010, 0x1020],
    )?;
    ranges(
        rt,
        b"ranges, size 3:",
        &unit(5, 3),
        0,
        b"\x06\x01\x02\x03\x04\x05\x06\0",
        &[0x30200, 0x30201, 0x60503, 0x60504],
    )
}

// All addresses; a split list with a row.
fn other_locations(rt: &impl Print) -> io::Result<()> {
    locations(
        rt,
        b"locations, size 8:",
        &unit(5, 8),
        DwarfFileType::Main,
        b"\x05\x01\x50\x07\0\0\0\0\0\0\0\0\xff\xff\xff\xff\xff\xff\xff\xff\x01\x51\0",
        &[0, 0xffff_ffff_ffff_fffe, 0xffff_ffff_ffff_ffff],
    )?;
    locations(
        rt,
        b"locations, split, version 4:",
        &unit(4, 4),
        DwarfFileType::Dwo,
        b"\x05\x01\0\x50\x03\0\x08\0\0\0\x01\0\x51\0",
        &[0xf, 0x10, 0x18],
    )
}

fn tables(rt: &impl Print) -> io::Result<()> {
    by_table(rt, b"\x03\x10\x20\0\x30\0\0\0\x10\x07", &[0x10, 0x20, 0x35])?;
    by_table(rt, b"\x03\x10\x20\x08", &[0x10, 0x20])
}

fn main(rt: HostRuntime) -> io::Result<()> {
    few(&rt)?;
    between(&rt)?;
    many(&rt)?;
    unopened(&rt)?;
    ends(&rt)?;
    defaults(&rt)?;
    failed(&rt)?;
    let all = numbers();
    overlapping(&rt, &all)?;
    ordered(&rt, &all)?;
    sizes(&rt)?;
    other_locations(&rt)?;
    tables(&rt)
}
