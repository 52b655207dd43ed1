// Location list entries (DWARF 5, 2.6.2 and 7.7.3; DWARF 4, 2.6.2; GNU split lists up to version 4).
#![tactic(auto, using(section_bytes::proofs::ReaderLaws::goes_on, section_bytes::proofs::ReaderLaws::stops, crate::proofs::HeadLaws::numbers_handed_on), unfolding(crate::specs::Kinds::kind_of, crate::specs::Kinds::location_kinds, crate::specs::Heads::located_as))]

ghost use Rattle.std.specs.Prelude.{◌≡◌, ℕ};
ghost use Rattle.section_bytes.specs.declared.error.Error.TheVariants.{UnknownLocListsEntry};
ghost use Rattle.section_bytes.specs.Common.{is_split};
ghost use Rattle.section_bytes.specs.declared.common.Encoding.{Encoding};
ghost use Rattle.section_bytes.specs.declared.endianity.RunTimeEndian.{RunTimeEndian};
ghost use Rattle.entries.specs.Told.{step_of};
ghost use Rattle.entries.specs.Kinds.{of_kind, kind_of, location_kinds, raw_location};
ghost use Rattle.entries.specs.Padded.{noted, told_noted, location_padded};
ghost use Rattle.entries.specs.Heads.{with_numbers, number_pair, startx_length};

use super::{Lists, Noted, RawLocListEntry, constants};
use section_bytes::common::{DwarfFileType, Encoding};
use section_bytes::endianity::RunTimeEndian;
use section_bytes::error::Error;

// The numbers of kinds 2 and 4, with the place after them: both LEB128.
fn number_pair(part: &[u8], at: usize) -> Result<(u64, u64, usize), Error>
    ensures { (encoding : Encoding) (endian : RunTimeEndian) (start code : ℕ) → with_numbers encoding endian start part.now code result ≡ number_pair encoding endian start part.now code at }
{
    let (a, c) = section_bytes::leb128::unsigned(part, at)?;
    let (b, c1) = section_bytes::leb128::unsigned(part, c)?;
    Ok((a, b, c1))
}

// The numbers of kind 3: LEB128 and a length.
fn startx_length(
    part: &[u8],
    at: usize,
    encoding: Encoding,
    endian: RunTimeEndian,
) -> Result<(u64, u64, usize), Error>
    ensures { (start code : ℕ) → with_numbers encoding endian start part.now code result ≡ startx_length encoding endian start part.now code at }
{
    let (a, c) = section_bytes::leb128::unsigned(part, at)?;
    let (b, c1) = super::operands::read_length(part, c, encoding, endian)?;
    Ok((a, b, c1))
}

// The two numbers of a kind that an expression follows, with the place after them; kind 5 has none. Each kind reads its own operands:
// where the answers of two readers meet before they are looked at, the compiled code stores them and loads them again.
pub(crate) fn numbers(
    part: &[u8],
    at: usize,
    code: u64,
    encoding: Encoding,
    endian: RunTimeEndian,
) -> Result<(u64, u64, usize), Error>
    requires no_end { code ≡ 0 → ⊥ }
    requires no_base_index { code ≡ 1 → ⊥ }
    requires no_base { code ≡ 6 → ⊥ }
    ensures { (start : ℕ) → with_numbers encoding endian start part.now code result ≡ of_kind encoding endian start part.now UnknownLocListsEntry code (kind_of location_kinds code) at }
{
    let size = encoding.address_size;
    match code {
        constants::DW_LLE_startx_endx | constants::DW_LLE_offset_pair => number_pair(part, at),
        constants::DW_LLE_startx_length => startx_length(part, at, encoding, endian),
        constants::DW_LLE_default_location => Ok((0, 0, at)),
        constants::DW_LLE_start_end => {
            let (a, c) = section_bytes::reader::read_address(part, at, size, endian)?;
            let (b, c1) = section_bytes::reader::read_address(part, c, size, endian)?;
            Ok((a, b, c1))
        }
        constants::DW_LLE_start_length => {
            let (a, c) = section_bytes::reader::read_address(part, at, size, endian)?;
            let (b, c1) = section_bytes::leb128::unsigned(part, c)?;
            Ok((a, b, c1))
        }
        _ => Err(Error::UnknownLocListsEntry(code)),
    }
}

// The raw entry at a place of a location list, with the place after it, and whether some LEB128 number of it is padded; at or past
// the section's end, none. Refused with 4 and the code, then operand by operand: an address with 6 and the size, then 1; a LEB128
// number with 1 or 2; an expression with its length's refusal, then 1.
pub fn raw_location_entry(
    section: &[u8],
    at: usize,
    encoding: Encoding,
    endian: RunTimeEndian,
    file_type: DwarfFileType,
) -> Result<Option<(Noted<RawLocListEntry>, usize)>, Error>
    ensures { told_noted result ≡ noted (location_padded (is_split file_type) encoding endian section.now at) (step_of (raw_location (is_split file_type) encoding endian section.now at)) }
{
    super::padded::noted_entry(section, at, encoding, endian, &Lists::Locations(file_type))
}
