// Offsets of range lists by index.
#![tactic(auto, using(section_bytes::proofs::ReaderLaws::reading))]

ghost use Rattle.std.specs.Prelude.{◌≡◌};
ghost use Rattle.tables.specs.Lists.{default_base};
ghost use Rattle.tables.specs.Row.{told_range_offset, range_offset, range_base};

use section_bytes::common::{
    DebugRngListsBase, DebugRngListsIndex, DwarfFileType, Encoding, RangeListsOffset,
};
use section_bytes::endianity::RunTimeEndian;
use section_bytes::error::Error;

// The offset of the list with an index: 1 for the base, 9 for the product, 1 for the row, 9 for the sum.
pub fn get_offset(
    debug_rnglists: &[u8],
    encoding: Encoding,
    base: DebugRngListsBase,
    index: DebugRngListsIndex,
    endian: RunTimeEndian,
) -> Result<RangeListsOffset, Error>
    ensures { told_range_offset result ≡ range_offset endian encoding.format base index debug_rnglists.now }
{
    let offset = super::row::offset_at(debug_rnglists, encoding.format, base.0, index.0, endian)?;
    Ok(RangeListsOffset(offset))
}

// Where the offset table begins when no attribute says so.
pub fn default_for_encoding_and_file(
    encoding: Encoding,
    file_type: DwarfFileType,
) -> DebugRngListsBase
    ensures { result ≡ range_base (default_base encoding file_type) }
{
    DebugRngListsBase(super::lists::default_base(encoding, file_type))
}
