// The calls on range lists.
use super::lines::Call;
use super::show;
use super::show::{Form, Refused, Turn};
use entries::{Noted, RawRngListEntry};
use lists::{Range, Unit, Walk};
use section_bytes::common::RangeListsOffset;
use section_bytes::error::Error;
use std::io;

pub(crate) fn form(entry: RawRngListEntry) -> Form {
    let (kind, a, b) = match entry {
        RawRngListEntry::AddressOrOffsetPair(b, e) => ("AddressOrOffsetPair", b, e),
        RawRngListEntry::BaseAddress(a) => ("BaseAddress", a, 0),
        RawRngListEntry::BaseAddressx(i) => ("BaseAddressx", i.0, 0),
        RawRngListEntry::StartxEndx(i, j) => ("StartxEndx", i.0, j.0),
        RawRngListEntry::StartxLength(i, n) => ("StartxLength", i.0, n),
        RawRngListEntry::OffsetPair(b, e) => ("OffsetPair", b, e),
        RawRngListEntry::StartEnd(b, e) => ("StartEnd", b, e),
        RawRngListEntry::StartLength(b, n) => ("StartLength", b, n),
    };
    Form { kind, a, b }
}

fn range(rt: &impl Print, answer: Result<Option<Range>, Error>, none: &str) -> io::Result<()> {
    match answer {
        Ok(Some(Range { begin, end })) => print!(rt; "range {begin:x} {end:x}"),
        Ok(None) => print!(rt; "{none}"),
        Err(e) => print!(rt; "{}", Refused(e)),
    }
}

fn raw(
    rt: &impl Print,
    answer: Result<Option<Noted<RawRngListEntry>>, Error>,
    walk: Walk,
) -> io::Result<Turn> {
    match answer {
        Ok(Some(noted)) => show::raw(rt, form(noted.entry))?,
        Ok(None) => print!(rt; "end")?,
        Err(e) => print!(rt; "{}", Refused(e))?,
    }
    show::stands(rt, walk, matches!(answer, Ok(None)))
}

pub(crate) fn next(rt: &impl Print, section: &[u8], unit: &Unit, walk: Walk) -> io::Result<Turn> {
    let (answer, after) = lists::rnglists::next(section, unit, walk);
    range(rt, answer, "end")?;
    show::stands(rt, after, matches!(answer, Ok(None)))
}

pub(crate) fn next_raw(
    rt: &impl Print,
    section: &[u8],
    unit: &Unit,
    walk: Walk,
) -> io::Result<Turn> {
    let (answer, after) = lists::rnglists::next_raw(section, walk, unit.encoding, unit.endian);
    raw(rt, answer, after)
}

// A raw entry, and what it comes to.
pub(crate) fn next_converted(
    rt: &impl Print,
    section: &[u8],
    unit: &Unit,
    walk: Walk,
) -> io::Result<Turn> {
    let (answer, after) = lists::rnglists::next_raw(section, walk, unit.encoding, unit.endian);
    let turn = raw(rt, answer, after)?;
    let Ok(Some(noted)) = answer else {
        return Ok(turn);
    };
    let (converted, then) = lists::rnglists::convert_raw(noted.entry, unit, after);
    range(rt, converted, "nothing")?;
    show::stands(rt, then, false)
}

pub(crate) fn look_up(rt: &impl Print, section: &[u8], unit: &Unit, call: Call) -> io::Result<()> {
    let found = lookups::lookup_range(section, unit, RangeListsOffset(call.a), call.b, call.d);
    range(rt, found, "not there")?;
    println!(rt)
}
