// Location lists, plain and split.
ghost use Rattle.std.specs.Prelude.{◌≡◌};
ghost use Rattle.section_bytes.specs.Error.{told_value};
ghost use Rattle.section_bytes.specs.Read.{gives};
ghost use Rattle.entries.specs.Filled.{whole};
ghost use Rattle.lists.specs.Walk.{item, told_next_location, told_raw, told_converted_location};
ghost use Rattle.lists.specs.Risen.{call_raised};
ghost use Rattle.lookups.specs.Lookup.{told_location_found};
ghost use Rattle.ffi_words.specs.Walks.{count_in};
ghost use Rattle.ffi_words.specs.Common.{left, no_part};
ghost use Rattle.ffi_words.specs.Entries.{expression_in, expression_told, entry_only, location_in, raw_location_told, raw_location_next, convert_location};
ghost use Rattle.ffi_words.specs.Locations.{location_told, no_location, location_next, location_outcome, location_found};

use super::common::{DONE, END, NOT_THERE, NOTHING, YzDone, YzPart};
use super::walks::WalkWords;
use entries::{Expression, Noted, RawLocListEntry, constants};
use lists::{LocationListEntry, Unit, Walk};
use section_bytes::common::DebugAddrIndex;
use section_bytes::error::Error;

#[repr(C)]
#[derive(Clone, Copy)]
pub struct YzLocation {
    pub done: YzDone,
    pub begin: u64,
    pub end: u64,
    pub expression: YzPart,
}

// A raw entry: its kind's code, 0 for a bare pair, its numbers, and its expression.
#[repr(C)]
#[derive(Clone, Copy)]
pub struct YzLocationEntry {
    pub kind: u64,
    pub first: u64,
    pub second: u64,
    pub expression: YzPart,
}

// 1 where some LEB128 number of the entry is padded.
#[repr(C)]
#[derive(Clone, Copy)]
pub struct YzRawLocation {
    pub done: YzDone,
    pub entry: YzLocationEntry,
    pub padded: u64,
}

fn expression_told(x: Expression) -> YzPart
    ensures { result ≡ expression_told x }
{
    YzPart {
        offset: x.offset as u64,
        length: x.len as u64,
    }
}

fn location_told(location: LocationListEntry) -> YzLocation
    ensures { result ≡ location_told (item location.range.begin location.range.end location.«data») }
{
    let range = location.range;
    let data = location.data;
    YzLocation {
        done: super::common::comes_to(DONE),
        begin: range.begin,
        end: range.end,
        expression: expression_told(data),
    }
}

fn no_location(done: YzDone) -> YzLocation
    ensures { result ≡ no_location done }
{
    YzLocation {
        done,
        begin: 0,
        end: 0,
        expression: super::common::no_part(),
    }
}

// The entries of the call were counted from 0, and are added to those of the walk.
pub fn location_next(
    handed: (Result<Option<LocationListEntry>, Error>, Walk),
    words: &mut WalkWords,
) -> YzLocation
    ensures { left result words.new ≡ location_next words.old (call_raised (count_in words.old) (told_next_location handed.0 handed.1)) }
{
    let (answer, walk) = handed;
    super::walks::hand_on(words, walk);
    match answer {
        Ok(Some(location)) => location_told(location),
        Ok(None) => no_location(super::common::comes_to(END)),
        Err(e) => no_location(super::common::refused(e)),
    }
}

pub fn location_found(r: Result<Option<LocationListEntry>, Error>) -> YzLocation
    ensures { result ≡ location_found (told_location_found r) }
{
    match r {
        Ok(Some(location)) => location_told(location),
        Ok(None) => no_location(super::common::comes_to(NOT_THERE)),
        Err(e) => no_location(super::common::refused(e)),
    }
}

fn numbers(kind: u64, first: u64, second: u64) -> YzLocationEntry
    ensures { result ≡ record { kind = kind; first = first; second = second; expression = no_part } }
{
    YzLocationEntry {
        kind,
        first,
        second,
        expression: super::common::no_part(),
    }
}

fn numbers_with(kind: u64, first: u64, second: u64, x: Expression) -> YzLocationEntry
    ensures { result ≡ record { kind = kind; first = first; second = second; expression = expression_told x } }
{
    YzLocationEntry {
        kind,
        first,
        second,
        expression: expression_told(x),
    }
}

#[tactic(auto, unfolding(entries::specs::Filled::location_of, entries::specs::Kinds::kind_of, entries::specs::Kinds::location_kinds))]
fn entry_out(raw: RawLocListEntry) -> YzLocationEntry
    ensures { location_in result ≡ gives (whole raw) }
{
    match raw {
        RawLocListEntry::AddressOrOffsetPair(begin, end, x) => numbers_with(
            constants::ADDRESS_OR_OFFSET_PAIR,
            begin,
            end,
            x,
        ),
        RawLocListEntry::BaseAddressx(index) => numbers(
            constants::DW_LLE_base_addressx,
            index.0,
            0,
        ),
        RawLocListEntry::StartxEndx(begin, end, x) => numbers_with(
            constants::DW_LLE_startx_endx,
            begin.0,
            end.0,
            x,
        ),
        RawLocListEntry::StartxLength(begin, length, x) => numbers_with(
            constants::DW_LLE_startx_length,
            begin.0,
            length,
            x,
        ),
        RawLocListEntry::OffsetPair(begin, end, x) => numbers_with(
            constants::DW_LLE_offset_pair,
            begin,
            end,
            x,
        ),
        RawLocListEntry::DefaultLocation(x) => numbers_with(
            constants::DW_LLE_default_location,
            0,
            0,
            x,
        ),
        RawLocListEntry::BaseAddress(address) => numbers(
            constants::DW_LLE_base_address,
            address,
            0,
        ),
        RawLocListEntry::StartEnd(begin, end, x) => numbers_with(
            constants::DW_LLE_start_end,
            begin,
            end,
            x,
        ),
        RawLocListEntry::StartLength(begin, length, x) => numbers_with(
            constants::DW_LLE_start_length,
            begin,
            length,
            x,
        ),
    }
}

pub fn raw_location(
    handed: (Result<Option<Noted<RawLocListEntry>>, Error>, Walk),
    words: &mut WalkWords,
) -> YzRawLocation
    ensures { left (raw_location_told result) words.new ≡ raw_location_next words.old (told_raw handed.0 handed.1) }
{
    let (answer, walk) = handed;
    super::walks::hand_back(words, walk);
    match answer {
        Ok(Some(noted)) => YzRawLocation {
            done: super::common::comes_to(DONE),
            entry: entry_out(noted.entry),
            padded: noted.padded as u64,
        },
        Ok(None) => YzRawLocation {
            done: super::common::comes_to(END),
            entry: numbers(0, 0, 0),
            padded: 0,
        },
        Err(e) => YzRawLocation {
            done: super::common::refused(e),
            entry: numbers(0, 0, 0),
            padded: 0,
        },
    }
}

fn expression_in(part: YzPart) -> Expression
    ensures { result ≡ expression_in part }
{
    Expression {
        offset: part.offset as usize,
        len: part.length as usize,
    }
}

// An entry that a caller hands in, or 4 for a code above the kinds.
#[tactic(auto, using(entries::proofs::KindLaws::no_location_kind), unfolding(entries::specs::Filled::location_of, entries::specs::Kinds::kind_of, entries::specs::Kinds::location_kinds))]
pub fn entry_in(entry: YzLocationEntry) -> Result<RawLocListEntry, Error>
    ensures { told_value result ≡ entry_only (location_in entry) }
{
    let code = entry.kind;
    let first = entry.first;
    let second = entry.second;
    let part = entry.expression;
    let x = expression_in(part);
    match code {
        constants::ADDRESS_OR_OFFSET_PAIR => Ok(RawLocListEntry::AddressOrOffsetPair(
            first, second, x,
        )),
        constants::DW_LLE_base_addressx => Ok(RawLocListEntry::BaseAddressx(DebugAddrIndex(first))),
        constants::DW_LLE_startx_endx => Ok(RawLocListEntry::StartxEndx(
            DebugAddrIndex(first),
            DebugAddrIndex(second),
            x,
        )),
        constants::DW_LLE_startx_length => Ok(RawLocListEntry::StartxLength(
            DebugAddrIndex(first),
            second,
            x,
        )),
        constants::DW_LLE_offset_pair => Ok(RawLocListEntry::OffsetPair(first, second, x)),
        constants::DW_LLE_default_location => Ok(RawLocListEntry::DefaultLocation(x)),
        constants::DW_LLE_base_address => Ok(RawLocListEntry::BaseAddress(first)),
        constants::DW_LLE_start_end => Ok(RawLocListEntry::StartEnd(first, second, x)),
        constants::DW_LLE_start_length => Ok(RawLocListEntry::StartLength(first, second, x)),
        _ => Err(Error::UnknownLocListsEntry(code)),
    }
}

// 6 with the size before all else, then 4, then the refusals of the address table.
#[tactic(auto, unfolding(crate::specs::Entries::convert_location))]
pub fn convert(
    entry: YzLocationEntry,
    unit: &Unit,
    walk: Walk,
) -> (Result<Option<LocationListEntry>, Error>, Walk)
    ensures { let u = unit.now in told_converted_location result.0 result.1 ≡ convert_location u.encoding u.endian u.debug_addr.now u.debug_addr_base walk entry }
{
    let size = unit.encoding.address_size as u64;
    if !section_bytes::reader::is_address_size(size) {
        return (Err(Error::UnsupportedAddressSize(size)), walk);
    }
    match entry_in(entry) {
        Ok(raw) => lists::loclists::convert_raw(raw, unit, walk),
        Err(e) => (Err(e), walk),
    }
}

pub fn location_converted(
    handed: (Result<Option<LocationListEntry>, Error>, Walk),
    words: &mut WalkWords,
) -> YzLocation
    ensures { left result words.new ≡ location_outcome words.old (told_converted_location handed.0 handed.1) }
{
    let (answer, walk) = handed;
    super::walks::hand_back(words, walk);
    match answer {
        Ok(Some(location)) => location_told(location),
        Ok(None) => no_location(super::common::comes_to(NOTHING)),
        Err(e) => no_location(super::common::refused(e)),
    }
}
