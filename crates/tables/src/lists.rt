// The header of a set of lists in `.debug_rnglists` or `.debug_loclists`.
#![tactic(auto, using(section_bytes::proofs::ReaderLaws::reading, crate::proofs::HeaderLaws::end_length, crate::proofs::HeaderLaws::number_inside), unfolding(crate::specs::Lists::lists_header, crate::specs::Lists::default_base))]

ghost use Rattle.std.specs.Prelude.{◌≡◌};
ghost use Rattle.tables.specs.Lists.{told_lists, lists_header, header_size, default_base};

use section_bytes::Span;
use section_bytes::common::{DwarfFileType, Encoding};
use section_bytes::endianity::RunTimeEndian;
use section_bytes::error::Error;

#[derive(Clone, Copy)]
pub struct ListsHeader {
    pub encoding: Encoding,
    pub offset_entry_count: u64,
}

impl ListsHeader {
    // The header at a place, with the bytes of its unit that follow it: the refusals of the fields, then 1 for the entry count.
    pub fn parse(
        section: &[u8],
        at: usize,
        endian: RunTimeEndian,
    ) -> Result<(ListsHeader, Span), Error>
        ensures { told_lists result ≡ lists_header endian section.now at }
    {
        let (head, c) = super::header::read_head(section, at, endian)?;
        let end = head.end;
        let (count, d) = section_bytes::reader::read_u32(&section[..end], c, endian)?;
        let header = ListsHeader {
            encoding: head.encoding(),
            offset_entry_count: count,
        };
        let rest = Span {
            offset: d,
            len: end - d,
        };
        Ok((header, rest))
    }

    // The bytes that the header takes: 12, or 20 in 64-bit DWARF.
    pub fn size(self) -> u64
        ensures { result ≡ header_size self.encoding }
    {
        size_for_encoding(self.encoding)
    }
}

// The bytes that a header of an encoding takes.
pub(crate) fn size_for_encoding(encoding: Encoding) -> u64
    ensures { result ≡ header_size encoding }
{
    (encoding.format.initial_length_size() as u64) + 8
}

// Where an offset table begins when no attribute says so: after the header in a split file from version 5 on, else 0.
pub(crate) fn default_base(encoding: Encoding, file_type: DwarfFileType) -> u64
    ensures { result ≡ default_base encoding file_type }
{
    if encoding.version < 5 {
        return 0;
    }
    match file_type {
        DwarfFileType::Main => 0,
        DwarfFileType::Dwo => size_for_encoding(encoding),
    }
}
