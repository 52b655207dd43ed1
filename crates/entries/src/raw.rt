// Raw entries of both lists, read as location entries, whose expression is empty in a range list. The entry of a range's kind and
// the numbers of a location's are read in the list's own module; all else is here.
ghost use Rattle.std.specs.Prelude.{Bool, false, ◌≡◌, ℕ, ◌+◌, ◌<◌, ◌^◌, length, Ok};
ghost use Rattle.section_bytes.specs.Common.{is_split};
ghost use Rattle.entries.specs.Told.{step_of, told_step};
ghost use Rattle.entries.specs.Kinds.{has_kinds, range_entry_by, coded_location, bare_location, location_entry, moved};
ghost use Rattle.entries.specs.Numbers.{numbers_of};
ghost use Rattle.entries.specs.Lists.{are_locations, coding_in};
ghost use Rattle.entries.specs.Listed.{bounds, read_in, step_in};
ghost use Rattle.entries.specs.Heads.{located_as, paired_in, bare_in};

use super::{Expression, Lists, NO_EXPRESSION, RawLocListEntry, RawRngListEntry, constants};
use section_bytes::common::{DebugAddrIndex, DwarfFileType, Encoding};
use section_bytes::endianity::RunTimeEndian;
use section_bytes::error::Error;

// What a bare pair is, with the place after it.
#[derive(Clone, Copy)]
enum Pair {
    Bounds(u64, u64, usize),
    BaseAddress(u64, usize),
    End,
}

// A bare pair: both zero end the list, a begin with all bits set makes the end the base address.
#[tactic(auto, using(section_bytes::proofs::ReaderLaws::goes_on, section_bytes::proofs::ReaderLaws::stops, crate::proofs::HeadLaws::pair_handed_on), unfolding(crate::specs::Kinds::bare, crate::specs::Kinds::of_pair))]
fn bare_pair(part: &[u8], encoding: Encoding, endian: RunTimeEndian) -> Result<Pair, Error>
    ensures { (l : Bool) (start : ℕ) → step_of (paired_in l encoding endian start part.now result) ≡ step_of (bare_in l encoding endian start part.now) }
{
    let size = encoding.address_size;
    let (begin, c) = section_bytes::reader::read_address(part, 0, size, endian)?;
    let (end, c1) = section_bytes::reader::read_address(part, c, size, endian)?;
    if super::operands::is_end(begin, end) {
        return Ok(Pair::End);
    }
    if begin == section_bytes::address::ones_sized(size) {
        return Ok(Pair::BaseAddress(end, c1));
    }
    Ok(Pair::Bounds(begin, end, c1))
}

// Whether entries have kinds: in split lists always, else from version 5 on.
fn has_kinds(file_type: DwarfFileType, version: u16) -> bool
    ensures { result ≡ has_kinds (is_split file_type) version }
{
    match file_type {
        DwarfFileType::Main => 5 <= version,
        DwarfFileType::Dwo => true,
    }
}

// The entry of a code, the two numbers after it and the expression after these.
#[tactic(auto, using(crate::proofs::HeadLaws::located_else), unfolding(crate::specs::Heads::located_as, crate::specs::Kinds::kind_of, crate::specs::Kinds::location_kinds))]
fn located(code: u64, a: u64, b: u64, expression: Expression) -> RawLocListEntry
    ensures { result ≡ located_as code a b expression }
{
    match code {
        constants::DW_LLE_startx_endx => RawLocListEntry::StartxEndx(
            DebugAddrIndex(a),
            DebugAddrIndex(b),
            expression,
        ),
        constants::DW_LLE_startx_length => RawLocListEntry::StartxLength(
            DebugAddrIndex(a),
            b,
            expression,
        ),
        constants::DW_LLE_offset_pair => RawLocListEntry::OffsetPair(a, b, expression),
        constants::DW_LLE_default_location => RawLocListEntry::DefaultLocation(expression),
        constants::DW_LLE_start_end => RawLocListEntry::StartEnd(a, b, expression),
        _ => RawLocListEntry::StartLength(a, b, expression),
    }
}

// The entry at the front of a part that starts at a place of its section: kinds from version 5 on, bare pairs before.
#[tactic(auto, unfolding(crate::specs::Kinds::range_entry_by))]
fn range_entry(
    part: &[u8],
    start: usize,
    encoding: Encoding,
    endian: RunTimeEndian,
    kinds: Option<&[u8]>,
) -> Result<Option<(RawLocListEntry, usize)>, Error>
    requires { start + length part.now < 2 ^ 64 }
    ensures { step_in false (told_step result) ≡ step_of (moved start (range_entry_by (numbers_of kinds.entry) encoding endian part.now)) }
{
    if 5 <= encoding.version {
        return super::rnglists::coded_range(part, start, encoding, endian, kinds);
    }
    match bare_pair(part, encoding, endian)? {
        Pair::End => Ok(None),
        Pair::BaseAddress(address, c) => Ok(Some((
            RawLocListEntry::BaseAddress(address),
            start + c,
        ))),
        Pair::Bounds(begin, end, c) => {
            let entry = RawLocListEntry::AddressOrOffsetPair(begin, end, NO_EXPRESSION);
            Ok(Some((entry, start + c)))
        }
    }
}

// The entry of a location's kind at the front of a part that starts at a place of its section, with the place after it, which is
// counted in the section; none at the end mark. What no expression follows is answered at once: in one answer with the other kinds it
// goes through memory, and a base address takes half as long again. The expression is read at this one place of the code, whatever
// the kind, so that the reading is compiled into it.
#[tactic(auto, using(section_bytes::proofs::ReaderLaws::goes_on, section_bytes::proofs::ReaderLaws::stops, crate::proofs::StepLaws::step_handed_on, section_bytes::proofs::Inside::unsigned_inside, crate::proofs::MovedLaws::address_within), unfolding(crate::specs::Kinds::coded, crate::specs::Kinds::kind_of, crate::specs::Kinds::location_kinds))]
fn coded_location(
    part: &[u8],
    start: usize,
    encoding: Encoding,
    endian: RunTimeEndian,
) -> Result<Option<(RawLocListEntry, usize)>, Error>
    requires { start + length part.now < 2 ^ 64 }
    ensures { told_step result ≡ step_of (moved start (coded_location encoding endian start part.now)) }
{
    let size = encoding.address_size;
    let (code, c) = section_bytes::reader::read_u8(part, 0)?;
    match code {
        constants::DW_LLE_end_of_list => Ok(None),
        constants::DW_LLE_base_addressx => {
            let (index, c1) = section_bytes::leb128::unsigned(part, c)?;
            let entry = RawLocListEntry::BaseAddressx(DebugAddrIndex(index));
            Ok(Some((entry, start + c1)))
        }
        constants::DW_LLE_base_address => {
            let (address, c1) = section_bytes::reader::read_address(part, c, size, endian)?;
            Ok(Some((RawLocListEntry::BaseAddress(address), start + c1)))
        }
        _ => {
            let (a, b, c1) = super::loclists::numbers(part, c, code, encoding, endian)?;
            let (expression, c2) = super::operands::read_expression(
                part, c1, start, encoding, endian,
            )?;
            Ok(Some((located(code, a, b, expression), start + c2)))
        }
    }
}

// The entry of a bare pair of a location list. It reads its own expression, whose length has two bytes: where pairs and kinds meet
// before an expression is read, a pair takes up to a third longer.
fn bare_location(
    part: &[u8],
    start: usize,
    encoding: Encoding,
    endian: RunTimeEndian,
) -> Result<Option<(RawLocListEntry, usize)>, Error>
    requires part_bound { start + length part.now < 2 ^ 64 }
    requires before { encoding.version < 5 }
    ensures { told_step result ≡ step_of (moved start (bare_location encoding endian start part.now)) }
{
    match bare_pair(part, encoding, endian)? {
        Pair::End => Ok(None),
        Pair::BaseAddress(address, c) => Ok(Some((
            RawLocListEntry::BaseAddress(address),
            start + c,
        ))),
        Pair::Bounds(begin, end, c) => {
            let (expression, c1) = super::operands::short_expression(part, c, start, endian)?;
            let entry = RawLocListEntry::AddressOrOffsetPair(begin, end, expression);
            Ok(Some((entry, start + c1)))
        }
    }
}

// The entry at the front of a part of a location list: kinds from version 5 on, and in split lists of every version.
#[tactic(auto, unfolding(crate::specs::Kinds::location_entry))]
fn location_entry(
    part: &[u8],
    start: usize,
    encoding: Encoding,
    endian: RunTimeEndian,
    file_type: DwarfFileType,
) -> Result<Option<(RawLocListEntry, usize)>, Error>
    requires { start + length part.now < 2 ^ 64 }
    ensures { told_step result ≡ step_of (moved start (location_entry (is_split file_type) encoding endian start part.now)) }
{
    if has_kinds(file_type, encoding.version) {
        return coded_location(part, start, encoding, endian);
    }
    bare_location(part, start, encoding, endian)
}

// The raw entry at a place of a list, with the place after it; at or past the section's end, none. Refused with 3 for ranges and 4
// for locations and the code, then operand by operand: an address with 6 and the size, then 1; a LEB128 number with 1 or 2; an
// expression with its length's refusal, then 1.
pub fn raw_entry(
    section: &[u8],
    at: usize,
    encoding: Encoding,
    endian: RunTimeEndian,
    lists: &Lists,
) -> Result<Option<(RawLocListEntry, usize)>, Error>
    ensures { let l = are_locations lists.now in step_in l (told_step result) ≡ step_of (read_in l (coding_in lists.now) encoding endian section.now at) }
{
    if section.len() <= at {
        return Ok(None);
    }
    match *lists {
        Lists::Ranges(kinds) => range_entry(&section[at..], at, encoding, endian, kinds),
        Lists::Locations(file) => location_entry(&section[at..], at, encoding, endian, file),
    }
}

// The bounds of a location as a range entry. A default location spans all 64-bit addresses.
pub fn bounds_of(raw: RawLocListEntry) -> RawRngListEntry
    ensures { result ≡ bounds raw }
{
    match raw {
        RawLocListEntry::AddressOrOffsetPair(b, e, _) => RawRngListEntry::AddressOrOffsetPair(b, e),
        RawLocListEntry::BaseAddress(a) => RawRngListEntry::BaseAddress(a),
        RawLocListEntry::BaseAddressx(i) => RawRngListEntry::BaseAddressx(i),
        RawLocListEntry::StartxEndx(i, j, _) => RawRngListEntry::StartxEndx(i, j),
        RawLocListEntry::StartxLength(i, n, _) => RawRngListEntry::StartxLength(i, n),
        RawLocListEntry::OffsetPair(b, e, _) => RawRngListEntry::OffsetPair(b, e),
        RawLocListEntry::DefaultLocation(_) => RawRngListEntry::StartEnd(0, u64::MAX),
        RawLocListEntry::StartEnd(b, e, _) => RawRngListEntry::StartEnd(b, e),
        RawLocListEntry::StartLength(b, n, _) => RawRngListEntry::StartLength(b, n),
    }
}
