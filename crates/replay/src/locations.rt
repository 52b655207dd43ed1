// The calls on location lists, plain and split.
use super::lines::Call;
use super::show::{Form, Refused, Turn};
use super::{ranges, show};
use entries::{Noted, RawLocListEntry};
use lists::{LocationListEntry, Unit, Walk};
use section_bytes::common::{DwarfFileType, LocationListsOffset};
use section_bytes::error::Error;
use std::io;

// All but a default location are told by their bounds.
fn form(entry: RawLocListEntry) -> Form {
    match entry {
        RawLocListEntry::DefaultLocation(_) => Form {
            kind: "DefaultLocation",
            a: 0,
            b: 0,
        },
        _ => ranges::form(entries::raw::bounds_of(entry)),
    }
}

fn location(
    rt: &impl Print,
    answer: Result<Option<LocationListEntry>, Error>,
    none: &str,
) -> io::Result<()> {
    match answer {
        Ok(Some(LocationListEntry { range, data })) => {
            print!(rt; "location {:x} {:x}", range.begin, range.end)?;
            show::expression(rt, data)
        }
        Ok(None) => print!(rt; "{none}"),
        Err(e) => print!(rt; "{}", Refused(e)),
    }
}

// Two zeros stand for an expression that an entry lacks.
fn raw(
    rt: &impl Print,
    answer: Result<Option<Noted<RawLocListEntry>>, Error>,
    walk: Walk,
) -> io::Result<Turn> {
    match answer {
        Ok(Some(noted)) => {
            show::raw(rt, form(noted.entry))?;
            show::expression(rt, lists::convert::expression_of(noted.entry))?;
        }
        Ok(None) => print!(rt; "end")?,
        Err(e) => print!(rt; "{}", Refused(e))?,
    }
    show::stands(rt, walk, matches!(answer, Ok(None)))
}

pub(crate) fn next(
    rt: &impl Print,
    section: &[u8],
    unit: &Unit,
    walk: Walk,
    file_type: DwarfFileType,
) -> io::Result<Turn> {
    let (answer, after) = lists::loclists::next(section, unit, walk, file_type);
    location(rt, answer, "end")?;
    show::stands(rt, after, matches!(answer, Ok(None)))
}

pub(crate) fn next_raw(
    rt: &impl Print,
    section: &[u8],
    unit: &Unit,
    walk: Walk,
    file_type: DwarfFileType,
) -> io::Result<Turn> {
    let (answer, after) = lists::loclists::next_raw(
        section,
        walk,
        unit.encoding,
        unit.endian,
        file_type,
    );
    raw(rt, answer, after)
}

// A raw entry, and what it comes to.
pub(crate) fn next_converted(
    rt: &impl Print,
    section: &[u8],
    unit: &Unit,
    walk: Walk,
    file_type: DwarfFileType,
) -> io::Result<Turn> {
    let (answer, after) = lists::loclists::next_raw(
        section,
        walk,
        unit.encoding,
        unit.endian,
        file_type,
    );
    let turn = raw(rt, answer, after)?;
    let Ok(Some(noted)) = answer else {
        return Ok(turn);
    };
    let (converted, then) = lists::loclists::convert_raw(noted.entry, unit, after);
    location(rt, converted, "nothing")?;
    show::stands(rt, then, false)
}

pub(crate) fn look_up(
    rt: &impl Print,
    section: &[u8],
    unit: &Unit,
    call: Call,
    file_type: DwarfFileType,
) -> io::Result<()> {
    let at = LocationListsOffset(call.a);
    let found = lookups::lookup_location(section, unit, at, call.b, file_type, call.d);
    location(rt, found, "not there")?;
    println!(rt)
}
