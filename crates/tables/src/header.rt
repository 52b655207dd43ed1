// The fields that each table begins with: unit_length, version, address_size, segment_selector_size.
#![tactic(auto, using(section_bytes::proofs::ReaderLaws::reading, crate::proofs::HeaderLaws::size_small, crate::proofs::HeaderLaws::cut_length, crate::proofs::HeaderLaws::cut_stays), unfolding(crate::specs::Header::fields, crate::specs::Header::head))]

ghost use Rattle.std.specs.Prelude.{◌≡◌};
ghost use Rattle.section_bytes.specs.Error.{told};
ghost use Rattle.tables.specs.Header.{fields, head, unit_encoding};

use section_bytes::common::{Encoding, Format};
use section_bytes::endianity::RunTimeEndian;
use section_bytes::error::Error;
use section_bytes::{Read, UnitLength};

// What the fields say: the unit's length and format, where the unit ends in the section, and the address size.
#[derive(Clone, Copy)]
pub struct Head {
    pub length: u64,
    pub format: Format,
    pub end: usize,
    pub address_size: u8,
}

impl Head {
    // How a unit of version 5 is written, by its fields.
    pub(crate) fn encoding(self) -> Encoding
        ensures { result ≡ unit_encoding self }
    {
        Encoding {
            address_size: self.address_size,
            format: self.format,
            version: 5,
        }
    }
}

// The fields after the length, in the section cut at the unit's end.
fn read_fields(unit: &[u8], at: usize, length: UnitLength, endian: RunTimeEndian) -> Read<Head>
    ensures { told result ≡ fields endian unit.now «length» at }
{
    let (version, c) = section_bytes::reader::read_u16(unit, at, endian)?;
    if version != 5 {
        return Err(Error::UnknownVersion(version));
    }
    let (address_size, c1) = section_bytes::reader::read_address_size(unit, c)?;
    let (segment_size, c2) = section_bytes::reader::read_u8(unit, c1)?;
    if segment_size != 0 {
        return Err(Error::UnsupportedSegmentSize(segment_size));
    }
    let head = Head {
        length: length.length,
        format: length.format,
        end: unit.len(),
        address_size: address_size as u8,
    };
    Ok((head, c2))
}

// The fields at a place: 1 or 8 for the length, 1 where the unit passes the section's end; then, in the unit's bytes,
// 1 or 5, 1 or 6, 1 or 7.
pub fn read_head(section: &[u8], at: usize, endian: RunTimeEndian) -> Read<Head>
    ensures { told result ≡ head endian section.now at }
{
    let (length, c) = section_bytes::reader::read_initial_length(section, at, endian)?;
    let (end, _) = section_bytes::reader::truncate(section, c, length.length)?;
    read_fields(&section[..end as usize], c, length, endian)
}
