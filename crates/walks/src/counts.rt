// How many raw entries walks have read: behind each answer, in parentheses, the walk's place and its count.
use super::unit;
use lists::{Range, Unit, Walk};
use section_bytes::common::RangeListsOffset;
use section_bytes::endianity::RunTimeEndian;
use section_bytes::error::Error;
use std::io;

// Two addresses, 10 and 20, behind their header.
const TABLE: &[u8] = b"\x0c\0\0\0\x05\0\x04\0\x10\0\0\0\x20\0\0\0";

fn little(address_size: u8) -> Unit<'static> {
    unit(5, address_size, RunTimeEndian::Little, TABLE)
}

// The refusal's number and its value, 0 where it has none.
fn refused(rt: &impl Print, e: Error) -> io::Result<()> {
    print!(rt; " refused {:x} {:x}", e.number(), e.value())
}

fn stands(rt: &impl Print, walk: Walk) -> io::Result<()> {
    print!(rt; " ({:x}, {:x})", walk.at, walk.entries)
}

fn answer(
    rt: &impl Print,
    answer: Result<Option<Range>, Error>,
    none: &str,
    after: Walk,
) -> io::Result<()> {
    match answer {
        Ok(Some(Range { begin, end })) => print!(rt; " {begin:x} {end:x}")?,
        Ok(None) => print!(rt; " {none}")?,
        Err(e) => refused(rt, e)?,
    }
    stands(rt, after)
}

// Three calls of next.
fn three(rt: &impl Print, list: &[u8], address_size: u8, start: Walk) -> io::Result<()> {
    let unit = little(address_size);
    let mut walk = start;
    for _ in 0..3 {
        let (next, after) = lists::rnglists::next(list, &unit, walk);
        answer(rt, next, "end", after)?;
        walk = after;
    }
    println!(rt)
}

fn opened(rt: &impl Print, label: &str, list: &[u8]) -> io::Result<()> {
    print!(rt; "{label}")?;
    match lists::rnglists::ranges(list, RangeListsOffset(0), little(4).encoding, 0) {
        Ok(start) => three(rt, list, 4, start),
        Err(e) => {
            refused(rt, e)?;
            println!(rt)
        }
    }
}

fn handed(
    rt: &impl Print,
    label: &str,
    list: &[u8],
    address_size: u8,
    at: usize,
    entries: u64,
) -> io::Result<()> {
    print!(rt; "{label}")?;
    let start = Walk {
        at,
        base_address: 0,
        entries,
    };
    three(rt, list, address_size, start)
}

// A call of next_raw, and of convert_raw on what it gave.
fn raw_step(rt: &impl Print, list: &[u8], unit: &Unit, walk: Walk) -> io::Result<Walk> {
    let (next, after) = lists::rnglists::next_raw(list, walk, unit.encoding, unit.endian);
    match next {
        Ok(Some(noted)) => {
            print!(rt; " entry")?;
            stands(rt, after)?;
            let (converted, then) = lists::rnglists::convert_raw(noted.entry, unit, after);
            answer(rt, converted, "nothing", then)?;
            Ok(then)
        }
        Ok(None) => {
            answer(rt, Ok(None), "end", after)?;
            Ok(after)
        }
        Err(e) => {
            answer(rt, Err(e), "end", after)?;
            Ok(after)
        }
    }
}

fn raw(rt: &impl Print, label: &str, list: &[u8]) -> io::Result<()> {
    let unit = little(4);
    print!(rt; "{label}")?;
    match lists::rnglists::raw_ranges(list, RangeListsOffset(0), unit.encoding) {
        Ok(start) => {
            let mut walk = start;
            for _ in 0..3 {
                walk = raw_step(rt, list, &unit, walk)?;
            }
        }
        Err(e) => refused(rt, e)?,
    }
    println!(rt)
}

pub(crate) fn counts(rt: &impl Print) -> io::Result<()> {
    let based = b"\x05\0\x10\0\0\x04\x01\x02\x04\x03\x03\x04\x05\x06\0\xff";
    let short = b"\x07\x10\0\0\0\x01\0";
    opened(rt, "end mark:", b"\0")?;
    opened(rt, "range and end mark:", b"\x06\x10\0\0\0\x20\0\0\0\0")?;
    opened(rt, "no end mark:", b"\x06\x10\0\0\0\x20\0\0\0")?;
    opened(rt, "base, pair, empty pair, pair:", based)?;
    opened(rt, "failed lookup:", b"\x02\0\x02\x03\0\x08\0")?;
    opened(rt, "range and unknown kind:", b"\x07\x10\0\0\0\x01\x08")?;
    opened(rt, "unknown kind:", b"\x08")?;
    handed(rt, "largest count:", short, 4, 0, u64::MAX)?;
    handed(rt, "one less:", short, 4, 0, u64::MAX - 1)?;
    handed(rt, "size 5, count 7:", b"\0", 5, 0, 7)?;
    handed(rt, "place 63, count 7:", short, 4, 99, 7)?;
    raw(rt, "raw and converted:", based)
}
