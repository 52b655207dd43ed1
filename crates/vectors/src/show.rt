// A line for each answer.
use entries::{Expression, Noted, RawLocListEntry, RawRngListEntry};
use section_bytes::common::Format;
use section_bytes::error::Error;
use section_bytes::{Read, Span, UnitLength};
use std::{fmt, io};
use tables::addr::{AddrEntryIter, AddrHeader, AddrHeaderIter};
use tables::lists::ListsHeader;

// A raw entry with the place after it, or none at the end.
type Step<E> = Result<Option<(Noted<E>, usize)>, Error>;

// The refusal's number, and its value where it has one.
fn refused(rt: &impl Print, label: &str, e: Error) -> io::Result<()> {
    let number = e.number();
    match e {
        Error::UnknownRangeListsEntry(value)
        | Error::UnknownLocListsEntry(value)
        | Error::UnknownVersion(value)
        | Error::UnsupportedAddressSize(value)
        | Error::UnsupportedSegmentSize(value)
        | Error::UnknownReservedLength(value) => {
            println!(rt; "{label} refused {number} {value}")
        }
        _ => println!(rt; "{label} refused {number}"),
    }
}

pub(crate) fn number(rt: &impl Print, label: &str, n: u64) -> io::Result<()> {
    println!(rt; "{label} {n}")
}

pub(crate) fn value<T: fmt::Display + Drop>(
    rt: &impl Print,
    label: &str,
    answer: Result<T, Error>,
) -> io::Result<()> {
    match answer {
        Ok(x) => println!(rt; "{label} {x}"),
        Err(e) => refused(rt, label, e),
    }
}

pub(crate) fn read(rt: &impl Print, label: &str, answer: Read<u64>) -> io::Result<()> {
    match answer {
        Ok((x, after)) => println!(rt; "{label} {x} next {after}"),
        Err(e) => refused(rt, label, e),
    }
}

pub(crate) fn split(rt: &impl Print, label: &str, answer: Read<Span>) -> io::Result<()> {
    match answer {
        Ok((Span { offset, len }, after)) => println!(rt; "{label} {offset} {len} next {after}"),
        Err(e) => refused(rt, label, e),
    }
}

pub(crate) fn initial_length(
    rt: &impl Print,
    label: &str,
    answer: Read<UnitLength>,
) -> io::Result<()> {
    read(rt, label, answer.map(|(unit, after)| (unit.length, after)))
}

pub(crate) fn lists(
    rt: &impl Print,
    label: &str,
    answer: Result<(ListsHeader, Span), Error>,
) -> io::Result<()> {
    match answer {
        Ok((header, Span { offset, len })) => {
            let size = header.encoding.address_size;
            let count = header.offset_entry_count;
            println!(rt; "{label} size {size} count {count} rest {offset} {len}")
        }
        Err(e) => refused(rt, label, e),
    }
}

fn bits(format: Format) -> u64 {
    match format {
        Format::Dwarf32 => 32,
        Format::Dwarf64 => 64,
    }
}

pub(crate) fn table_header(
    rt: &impl Print,
    label: &str,
    answer: Read<AddrHeader>,
) -> io::Result<()> {
    match answer {
        Ok((header, after)) => {
            let start = header.offset.0;
            let length = header.length;
            let bits = bits(header.encoding.format);
            let size = header.encoding.address_size;
            let Span { offset, len } = header.entries;
            print!(rt; "{label} offset {start} length {length} format {bits} size {size}")?;
            println!(rt; " entries {offset} {len} next {after}")
        }
        Err(e) => refused(rt, label, e),
    }
}

pub(crate) fn next_header(
    rt: &impl Print,
    label: &str,
    answer: Result<Option<AddrHeader>, Error>,
    walk: AddrHeaderIter,
) -> io::Result<()> {
    match answer {
        Ok(Some(_)) => println!(rt; "{label} next {}", walk.at),
        Ok(None) => println!(rt; "{label} end {}", walk.at),
        Err(e) => refused(rt, label, e),
    }
}

pub(crate) fn next_entry(
    rt: &impl Print,
    label: &str,
    answer: Result<Option<u64>, Error>,
    walk: AddrEntryIter,
) -> io::Result<()> {
    match answer {
        Ok(Some(address)) => println!(rt; "{label} {address}"),
        Ok(None) => {
            let Span { offset, len } = walk.entries;
            println!(rt; "{label} end {offset} {len}")
        }
        Err(e) => refused(rt, label, e),
    }
}

fn range_entry(rt: &impl Print, entry: RawRngListEntry) -> io::Result<()> {
    match entry {
        RawRngListEntry::BaseAddress(a) => print!(rt; " base {a}"),
        RawRngListEntry::AddressOrOffsetPair(b, e) => print!(rt; " {b} {e}"),
        RawRngListEntry::StartEnd(b, e) => print!(rt; " start {b} end {e}"),
        _ => print!(rt; " of another kind"),
    }
}

pub(crate) fn range(rt: &impl Print, label: &str, answer: Step<RawRngListEntry>) -> io::Result<()> {
    match answer {
        Ok(Some((noted, after))) => {
            print!(rt; "{label}")?;
            range_entry(rt, noted.entry)?;
            println!(rt; " next {after}")
        }
        Ok(None) => println!(rt; "{label} end"),
        Err(e) => refused(rt, label, e),
    }
}

fn location_entry(rt: &impl Print, entry: RawLocListEntry) -> io::Result<()> {
    match entry {
        RawLocListEntry::DefaultLocation(Expression { offset, len }) => {
            print!(rt; " expression {offset} {len}")
        }
        RawLocListEntry::StartxLength(index, length, Expression { offset, len }) => {
            print!(rt;
                " index {} length {length} expression {offset} {len}",
                index.0
            )
        }
        _ => print!(rt; " of another kind"),
    }
}

pub(crate) fn location(
    rt: &impl Print,
    label: &str,
    answer: Step<RawLocListEntry>,
) -> io::Result<()> {
    match answer {
        Ok(Some((noted, after))) => {
            print!(rt; "{label}")?;
            location_entry(rt, noted.entry)?;
            println!(rt; " next {after}")
        }
        Ok(None) => println!(rt; "{label} end"),
        Err(e) => refused(rt, label, e),
    }
}
