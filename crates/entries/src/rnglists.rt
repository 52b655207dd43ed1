// Range list entries (DWARF 5, 2.17.3 and 7.25; DWARF 4, 2.17.3).
#![tactic(auto, using(section_bytes::proofs::ReaderLaws::goes_on, section_bytes::proofs::ReaderLaws::stops, crate::proofs::OperandLaws::index_goes_on, crate::proofs::OperandLaws::index_stops, crate::proofs::StepLaws::step_handed_on, section_bytes::proofs::Inside::unsigned_inside, crate::proofs::MovedLaws::address_within), unfolding(crate::specs::Kinds::coded, crate::specs::Kinds::kind_of, crate::specs::Kinds::range_kinds))]

ghost use Rattle.std.specs.Prelude.{false, ◌≡◌, ◌+◌, ◌<◌, ◌^◌, length};
ghost use Rattle.entries.specs.Told.{step_of, told_step};
ghost use Rattle.entries.specs.Listed.{step_in};
ghost use Rattle.entries.specs.Kinds.{coded_range_by, moved, raw_range};
ghost use Rattle.entries.specs.Numbers.{numbers_of};
ghost use Rattle.entries.specs.Padded.{noted, told_noted, range_padded};

use super::{Lists, NO_EXPRESSION, Noted, RawLocListEntry, RawRngListEntry, constants};
use section_bytes::common::{DebugAddrIndex, Encoding};
use section_bytes::endianity::RunTimeEndian;
use section_bytes::error::Error;

// An entry by its kind, as a location without an expression, with the place after it; none at the end mark. Start is the part's
// place in its section, and places are answered as the section's.
pub(crate) fn coded_range(
    part: &[u8],
    start: usize,
    encoding: Encoding,
    endian: RunTimeEndian,
    kinds: Option<&[u8]>,
) -> Result<Option<(RawLocListEntry, usize)>, Error>
    requires { start + length part.now < 2 ^ 64 }
    ensures { step_in false (told_step result) ≡ step_of (moved start (coded_range_by (numbers_of kinds.entry) encoding endian part.now)) }
{
    let size = encoding.address_size;
    let (code, c) = section_bytes::reader::read_u8(part, 0)?;
    match super::kinds::kind_number(code, kinds) {
        constants::DW_RLE_end_of_list => Ok(None),
        constants::DW_RLE_base_addressx => {
            let (index, c1) = section_bytes::leb128::unsigned(part, c)?;
            let entry = RawLocListEntry::BaseAddressx(DebugAddrIndex(index));
            Ok(Some((entry, start + c1)))
        }
        constants::DW_RLE_startx_endx => {
            let (begin, c1) = section_bytes::leb128::unsigned(part, c)?;
            let (end, c2) = section_bytes::leb128::unsigned(part, c1)?;
            let entry = RawLocListEntry::StartxEndx(
                DebugAddrIndex(begin),
                DebugAddrIndex(end),
                NO_EXPRESSION,
            );
            Ok(Some((entry, start + c2)))
        }
        constants::DW_RLE_startx_length => {
            let (begin, c1) = section_bytes::leb128::unsigned(part, c)?;
            let (len, c2) = section_bytes::leb128::unsigned(part, c1)?;
            let entry = RawLocListEntry::StartxLength(DebugAddrIndex(begin), len, NO_EXPRESSION);
            Ok(Some((entry, start + c2)))
        }
        constants::DW_RLE_offset_pair => {
            let (begin, c1) = section_bytes::leb128::unsigned(part, c)?;
            let (end, c2) = section_bytes::leb128::unsigned(part, c1)?;
            let entry = RawLocListEntry::OffsetPair(begin, end, NO_EXPRESSION);
            Ok(Some((entry, start + c2)))
        }
        constants::DW_RLE_base_address => {
            let (address, c1) = section_bytes::reader::read_address(part, c, size, endian)?;
            Ok(Some((RawLocListEntry::BaseAddress(address), start + c1)))
        }
        constants::DW_RLE_start_end => {
            let (begin, c1) = section_bytes::reader::read_address(part, c, size, endian)?;
            let (end, c2) = section_bytes::reader::read_address(part, c1, size, endian)?;
            let entry = RawLocListEntry::StartEnd(begin, end, NO_EXPRESSION);
            Ok(Some((entry, start + c2)))
        }
        constants::DW_RLE_start_length => {
            let (begin, c1) = section_bytes::reader::read_address(part, c, size, endian)?;
            let (len, c2) = section_bytes::leb128::unsigned(part, c1)?;
            let entry = RawLocListEntry::StartLength(begin, len, NO_EXPRESSION);
            Ok(Some((entry, start + c2)))
        }
        _ => Err(Error::UnknownRangeListsEntry(code)),
    }
}

// The raw entry at a place of a range list, with the place after it, and whether some LEB128 number of it is padded; at or past the
// section's end, none. Refused with 3 and the code, then operand by operand: an address with 6 and the size, then 1; a LEB128 number
// with 1 or 2.
pub fn raw_range_entry(
    section: &[u8],
    at: usize,
    encoding: Encoding,
    endian: RunTimeEndian,
) -> Result<Option<(Noted<RawRngListEntry>, usize)>, Error>
    ensures { told_noted result ≡ noted (range_padded encoding endian section.now at) (step_of (raw_range encoding endian section.now at)) }
{
    let lists = Lists::Ranges(None);
    let Some((noted, after)) = super::padded::noted_entry(section, at, encoding, endian, &lists)?
    else {
        return Ok(None);
    };
    let entry = super::raw::bounds_of(noted.entry);
    let padded = noted.padded;
    Ok(Some((Noted { entry, padded }, after)))
}
