// A row of a table that is reached by a base and an index.
#![tactic(auto, using(section_bytes::proofs::ReaderLaws::reading), unfolding(crate::specs::Row::row_at, crate::specs::Row::offset_at))]

ghost use Rattle.std.specs.Prelude.{◌≡◌, ◌*◌, ◌^◌, leb};
ghost use Rattle.section_bytes.specs.Error.{told_place, told_value};
ghost use Rattle.tables.specs.Row.{row_at, offset_at};

use section_bytes::common::Format;
use section_bytes::endianity::RunTimeEndian;
use section_bytes::error::Error;

// Whether a product is not below 2^64. Up to 2^64 / 255 no index needs the division.
fn too_large(index: u64, width: u8) -> bool
    ensures { result ≡ leb (2 ^ 64) (index * width) }
{
    if index <= 0x0101_0101_0101_0101 {
        return false;
    }
    if width == 0 {
        return false;
    }
    u64::MAX / (width as u64) < index
}

// The place of a row: 1 for the base, 9 for the product, 1 for the row.
pub(crate) fn row_at(section: &[u8], base: u64, index: u64, width: u8) -> Result<usize, Error>
    ensures { told_place result ≡ row_at base index width section.now }
{
    let first = section_bytes::reader::skip(section, 0, base)?;
    if too_large(index, width) {
        return Err(Error::UnsupportedOffset);
    }
    section_bytes::reader::skip(section, first, index * (width as u64))
}

// The offset in a row of an offset table, counted from the section's start.
pub(crate) fn offset_at(
    section: &[u8],
    format: Format,
    base: u64,
    index: u64,
    endian: RunTimeEndian,
) -> Result<u64, Error>
    ensures { told_value result ≡ offset_at endian format base index section.now }
{
    let row = row_at(section, base, index, format.word_size())?;
    let (offset, _) = section_bytes::reader::read_offset(section, row, format, endian)?;
    if u64::MAX - base < offset {
        return Err(Error::UnsupportedOffset);
    }
    Ok(base + offset)
}
