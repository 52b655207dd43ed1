// Range lists.
ghost use Rattle.std.specs.Prelude.{◌≡◌};
ghost use Rattle.section_bytes.specs.Error.{told_value};
ghost use Rattle.section_bytes.specs.Read.{gives};
ghost use Rattle.entries.specs.Filled.{whole};
ghost use Rattle.lists.specs.Walk.{item, told_next_range, told_raw, told_converted_range};
ghost use Rattle.lists.specs.Risen.{call_raised};
ghost use Rattle.lookups.specs.Lookup.{told_range_found};
ghost use Rattle.ffi_words.specs.Walks.{count_in};
ghost use Rattle.ffi_words.specs.Common.{left};
ghost use Rattle.ffi_words.specs.Entries.{entry_only, range_in, raw_range_told, raw_range_next, convert_range};
ghost use Rattle.ffi_words.specs.Ranges.{range_told, no_range, range_next, range_outcome, range_found};

use super::common::{DONE, END, NOT_THERE, NOTHING, YzDone};
use super::walks::WalkWords;
use entries::{Noted, RawRngListEntry, constants};
use lists::{Range, Unit, Walk};
use section_bytes::common::DebugAddrIndex;
use section_bytes::error::Error;

#[repr(C)]
#[derive(Clone, Copy)]
pub struct YzRange {
    pub done: YzDone,
    pub begin: u64,
    pub end: u64,
}

// A raw entry: its kind's code, 0 for a bare pair, and its numbers.
#[repr(C)]
#[derive(Clone, Copy)]
pub struct YzRangeEntry {
    pub kind: u64,
    pub first: u64,
    pub second: u64,
}

// 1 where some LEB128 number of the entry is padded.
#[repr(C)]
#[derive(Clone, Copy)]
pub struct YzRawRange {
    pub done: YzDone,
    pub entry: YzRangeEntry,
    pub padded: u64,
}

fn range_told(range: Range) -> YzRange
    ensures { result ≡ range_told (item range.begin range.end tt) }
{
    YzRange {
        done: super::common::comes_to(DONE),
        begin: range.begin,
        end: range.end,
    }
}

fn no_range(done: YzDone) -> YzRange
    ensures { result ≡ no_range done }
{
    YzRange {
        done,
        begin: 0,
        end: 0,
    }
}

// The entries of the call were counted from 0, and are added to those of the walk.
pub fn range_next(handed: (Result<Option<Range>, Error>, Walk), words: &mut WalkWords) -> YzRange
    ensures { left result words.new ≡ range_next words.old (call_raised (count_in words.old) (told_next_range handed.0 handed.1)) }
{
    let (answer, walk) = handed;
    super::walks::hand_on(words, walk);
    match answer {
        Ok(Some(range)) => range_told(range),
        Ok(None) => no_range(super::common::comes_to(END)),
        Err(e) => no_range(super::common::refused(e)),
    }
}

pub fn range_found(r: Result<Option<Range>, Error>) -> YzRange
    ensures { result ≡ range_found (told_range_found r) }
{
    match r {
        Ok(Some(range)) => range_told(range),
        Ok(None) => no_range(super::common::comes_to(NOT_THERE)),
        Err(e) => no_range(super::common::refused(e)),
    }
}

fn numbers(kind: u64, first: u64, second: u64) -> YzRangeEntry
    ensures { result ≡ record { kind = kind; first = first; second = second } }
{
    YzRangeEntry {
        kind,
        first,
        second,
    }
}

#[tactic(auto, unfolding(entries::specs::Filled::range_of, entries::specs::Kinds::kind_of, entries::specs::Kinds::range_kinds))]
fn entry_out(raw: RawRngListEntry) -> YzRangeEntry
    ensures { range_in result ≡ gives (whole raw) }
{
    match raw {
        RawRngListEntry::AddressOrOffsetPair(begin, end) => numbers(
            constants::ADDRESS_OR_OFFSET_PAIR,
            begin,
            end,
        ),
        RawRngListEntry::BaseAddressx(index) => numbers(
            constants::DW_RLE_base_addressx,
            index.0,
            0,
        ),
        RawRngListEntry::StartxEndx(begin, end) => numbers(
            constants::DW_RLE_startx_endx,
            begin.0,
            end.0,
        ),
        RawRngListEntry::StartxLength(begin, length) => numbers(
            constants::DW_RLE_startx_length,
            begin.0,
            length,
        ),
        RawRngListEntry::OffsetPair(begin, end) => numbers(
            constants::DW_RLE_offset_pair,
            begin,
            end,
        ),
        RawRngListEntry::BaseAddress(address) => numbers(
            constants::DW_RLE_base_address,
            address,
            0,
        ),
        RawRngListEntry::StartEnd(begin, end) => numbers(constants::DW_RLE_start_end, begin, end),
        RawRngListEntry::StartLength(begin, length) => numbers(
            constants::DW_RLE_start_length,
            begin,
            length,
        ),
    }
}

pub fn raw_range(
    handed: (Result<Option<Noted<RawRngListEntry>>, Error>, Walk),
    words: &mut WalkWords,
) -> YzRawRange
    ensures { left (raw_range_told result) words.new ≡ raw_range_next words.old (told_raw handed.0 handed.1) }
{
    let (answer, walk) = handed;
    super::walks::hand_back(words, walk);
    match answer {
        Ok(Some(noted)) => YzRawRange {
            done: super::common::comes_to(DONE),
            entry: entry_out(noted.entry),
            padded: noted.padded as u64,
        },
        Ok(None) => YzRawRange {
            done: super::common::comes_to(END),
            entry: numbers(0, 0, 0),
            padded: 0,
        },
        Err(e) => YzRawRange {
            done: super::common::refused(e),
            entry: numbers(0, 0, 0),
            padded: 0,
        },
    }
}

// An entry that a caller hands in, or 3 for a code above the kinds.
#[tactic(auto, using(entries::proofs::KindLaws::no_range_kind), unfolding(entries::specs::Filled::range_of, entries::specs::Kinds::kind_of, entries::specs::Kinds::range_kinds))]
pub fn entry_in(entry: YzRangeEntry) -> Result<RawRngListEntry, Error>
    ensures { told_value result ≡ entry_only (range_in entry) }
{
    let code = entry.kind;
    let first = entry.first;
    let second = entry.second;
    match code {
        constants::ADDRESS_OR_OFFSET_PAIR => Ok(RawRngListEntry::AddressOrOffsetPair(
            first, second,
        )),
        constants::DW_RLE_base_addressx => Ok(RawRngListEntry::BaseAddressx(DebugAddrIndex(first))),
        constants::DW_RLE_startx_endx => Ok(RawRngListEntry::StartxEndx(
            DebugAddrIndex(first),
            DebugAddrIndex(second),
        )),
        constants::DW_RLE_startx_length => Ok(RawRngListEntry::StartxLength(
            DebugAddrIndex(first),
            second,
        )),
        constants::DW_RLE_offset_pair => Ok(RawRngListEntry::OffsetPair(first, second)),
        constants::DW_RLE_base_address => Ok(RawRngListEntry::BaseAddress(first)),
        constants::DW_RLE_start_end => Ok(RawRngListEntry::StartEnd(first, second)),
        constants::DW_RLE_start_length => Ok(RawRngListEntry::StartLength(first, second)),
        _ => Err(Error::UnknownRangeListsEntry(code)),
    }
}

// 6 with the size before all else, then 3, then the refusals of the address table.
#[tactic(auto, unfolding(crate::specs::Entries::convert_range))]
pub fn convert(entry: YzRangeEntry, unit: &Unit, walk: Walk) -> (Result<Option<Range>, Error>, Walk)
    ensures { let u = unit.now in told_converted_range result.0 result.1 ≡ convert_range u.encoding u.endian u.debug_addr.now u.debug_addr_base walk entry }
{
    let size = unit.encoding.address_size as u64;
    if !section_bytes::reader::is_address_size(size) {
        return (Err(Error::UnsupportedAddressSize(size)), walk);
    }
    match entry_in(entry) {
        Ok(raw) => lists::rnglists::convert_raw(raw, unit, walk),
        Err(e) => (Err(e), walk),
    }
}

pub fn range_converted(
    handed: (Result<Option<Range>, Error>, Walk),
    words: &mut WalkWords,
) -> YzRange
    ensures { left result words.new ≡ range_outcome words.old (told_converted_range handed.0 handed.1) }
{
    let (answer, walk) = handed;
    super::walks::hand_back(words, walk);
    match answer {
        Ok(Some(range)) => range_told(range),
        Ok(None) => no_range(super::common::comes_to(NOTHING)),
        Err(e) => no_range(super::common::refused(e)),
    }
}
