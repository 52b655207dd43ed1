// Lists: 0 to 3 range lists, 4 to 7 location lists, 8 to 11 split ones; of each first next, then next_raw with
// convert_raw, then next_raw of a walk that was opened raw, then lookup. The numbers are the list's offset, the base
// address, the table's base and the address that is looked up.
use super::lines::{Call, Line};
use super::show::{Refused, Turn};
use super::{locations, ranges, show};
use lists::{Unit, Walk};
use section_bytes::common::{DebugAddrBase, DwarfFileType, LocationListsOffset, RangeListsOffset};
use section_bytes::error::Error;
use std::io;

fn file_type_of(what: u64) -> DwarfFileType {
    if what < 8 {
        DwarfFileType::Main
    } else {
        DwarfFileType::Dwo
    }
}

fn turn(rt: &impl Print, section: &[u8], unit: &Unit, what: u64, walk: Walk) -> io::Result<Turn> {
    let file_type = file_type_of(what);
    match what {
        0 => ranges::next(rt, section, unit, walk),
        1 => ranges::next_converted(rt, section, unit, walk),
        2 => ranges::next_raw(rt, section, unit, walk),
        4 | 8 => locations::next(rt, section, unit, walk, file_type),
        5 | 9 => locations::next_converted(rt, section, unit, walk, file_type),
        _ => locations::next_raw(rt, section, unit, walk, file_type),
    }
}

fn walk(rt: &impl Print, section: &[u8], unit: &Unit, what: u64, start: Walk) -> io::Result<()> {
    let mut walk = start;
    let mut last = false;
    for _ in 0..show::CALLS {
        let turn = turn(rt, section, unit, what, walk)?;
        if last {
            return Ok(());
        }
        walk = turn.walk;
        last = turn.ended;
    }
    Ok(())
}

fn open(section: &[u8], call: Call) -> Result<Walk, Error> {
    let encoding = call.encoding;
    let ranges = RangeListsOffset(call.a);
    let locations = LocationListsOffset(call.a);
    match call.what {
        0 | 1 => lists::rnglists::ranges(section, ranges, encoding, call.b),
        2 => lists::rnglists::raw_ranges(section, ranges, encoding),
        6 | 10 => lists::loclists::raw_locations(section, locations, encoding),
        _ => lists::loclists::locations(section, locations, encoding, call.b),
    }
}

// Where the opened walk stands, and its calls; a refused opening is no walk.
fn open_and_walk(rt: &impl Print, section: &[u8], unit: &Unit, call: Call) -> io::Result<()> {
    match open(section, call) {
        Ok(start) => {
            print!(rt; "opened")?;
            show::stands(rt, start, false)?;
            walk(rt, section, unit, call.what, start)
        }
        Err(e) => println!(rt; "{}", Refused(e)),
    }
}

fn section_of(line: &Line) -> &[u8] {
    let call = line.call;
    if call.what < 4 {
        return lists::rnglists::section(line.old.bytes(), line.new.bytes(), call.encoding);
    }
    lists::loclists::section(line.old.bytes(), line.new.bytes(), call.encoding)
}

pub(crate) fn answer(rt: &impl Print, line: &Line) -> io::Result<()> {
    let call = line.call;
    let section = section_of(line);
    let unit = Unit {
        encoding: call.encoding,
        endian: call.endian,
        debug_addr: line.table.bytes(),
        debug_addr_base: DebugAddrBase(call.c),
    };
    match call.what {
        3 => ranges::look_up(rt, section, &unit, call),
        7 | 11 => locations::look_up(rt, section, &unit, call, file_type_of(call.what)),
        _ => open_and_walk(rt, section, &unit, call),
    }
}
