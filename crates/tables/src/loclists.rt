// Offsets of location lists by index.
#![tactic(auto, using(section_bytes::proofs::ReaderLaws::reading))]

ghost use Rattle.std.specs.Prelude.{◌≡◌};
ghost use Rattle.tables.specs.Lists.{default_base};
ghost use Rattle.tables.specs.Row.{told_location_offset, location_offset, location_base};

use section_bytes::common::{
    DebugLocListsBase, DebugLocListsIndex, DwarfFileType, Encoding, LocationListsOffset,
};
use section_bytes::endianity::RunTimeEndian;
use section_bytes::error::Error;

// The offset of the list with an index: 1 for the base, 9 for the product, 1 for the row, 9 for the sum.
pub fn get_offset(
    debug_loclists: &[u8],
    encoding: Encoding,
    base: DebugLocListsBase,
    index: DebugLocListsIndex,
    endian: RunTimeEndian,
) -> Result<LocationListsOffset, Error>
    ensures { told_location_offset result ≡ location_offset endian encoding.format base index debug_loclists.now }
{
    let offset = super::row::offset_at(debug_loclists, encoding.format, base.0, index.0, endian)?;
    Ok(LocationListsOffset(offset))
}

// Where the offset table begins when no attribute says so.
pub fn default_for_encoding_and_file(
    encoding: Encoding,
    file_type: DwarfFileType,
) -> DebugLocListsBase
    ensures { result ≡ location_base (default_base encoding file_type) }
{
    DebugLocListsBase(super::lists::default_base(encoding, file_type))
}
