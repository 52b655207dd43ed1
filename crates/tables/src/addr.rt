// Address tables in `.debug_addr`.
#![tactic(auto, using(section_bytes::proofs::ReaderLaws::reading, crate::proofs::HeaderLaws::place_inside, crate::proofs::AddrLaws::part_ends_inside, crate::proofs::AddrLaws::address_ends_inside), unfolding(crate::specs::Addr::address_at, crate::specs::Addr::addr_header, crate::specs::Addr::next_header, crate::specs::Addr::next_entry))]

ghost use Rattle.std.specs.Prelude.{◌≡◌, ◌+◌, ◌≤◌, ◌<◌, ◌^◌};
ghost use Rattle.section_bytes.specs.Error.{told, told_value};
ghost use Rattle.tables.specs.Addr.{address_at, addr_header, next_header, entries_of, moved_on, next_entry};
ghost use Rattle.tables.specs.Next.{told_next};

use section_bytes::common::{DebugAddrBase, DebugAddrIndex, DebugAddrOffset, Encoding};
use section_bytes::endianity::RunTimeEndian;
use section_bytes::error::Error;
use section_bytes::{Read, Span};

// The address of an index in the table at a base: 1 for the base, 9 for the product, 1 for the row, 6 for another size,
// 1 for the address.
pub fn get_address(
    debug_addr: &[u8],
    address_size: u8,
    base: DebugAddrBase,
    index: DebugAddrIndex,
    endian: RunTimeEndian,
) -> Result<u64, Error>
    ensures { told_value result ≡ address_at endian address_size base index debug_addr.now }
{
    let row = super::row::row_at(debug_addr, base.0, index.0, address_size)?;
    let (address, _) = section_bytes::reader::read_address(debug_addr, row, address_size, endian)?;
    Ok(address)
}

// A table: where its header stands, how it is written, the length that the header says, and where its addresses are.
#[derive(Clone, Copy)]
pub struct AddrHeader {
    pub offset: DebugAddrOffset,
    pub encoding: Encoding,
    pub length: u64,
    pub entries: Span,
}

// The header at a place, with the place after the table: the refusals of its fields. The addresses follow it.
pub fn parse_header(debug_addr: &[u8], at: usize, endian: RunTimeEndian) -> Read<AddrHeader>
    ensures { told result ≡ addr_header endian debug_addr.now at }
{
    let (head, c) = super::header::read_head(debug_addr, at, endian)?;
    let end = head.end;
    let entries = Span {
        offset: c,
        len: end - c,
    };
    let header = AddrHeader {
        offset: DebugAddrOffset(at as u64),
        encoding: head.encoding(),
        length: head.length,
        entries,
    };
    Ok((header, end))
}

// A walk over the headers of a section: the place of the next one.
#[derive(Clone, Copy)]
pub struct AddrHeaderIter {
    pub at: usize,
}

impl AddrHeaderIter {
    // The next header, or none at the section's end. A refusal empties the walk.
    pub fn next(
        self,
        debug_addr: &[u8],
        endian: RunTimeEndian,
    ) -> (Result<Option<AddrHeader>, Error>, AddrHeaderIter)
        ensures { told_next result.0 result.1 ≡ next_header endian debug_addr.now self }
    {
        let end = debug_addr.len();
        if end <= self.at {
            return (Ok(None), self);
        }
        match parse_header(debug_addr, self.at, endian) {
            Ok((header, after)) => (Ok(Some(header)), AddrHeaderIter { at: after }),
            Err(e) => (Err(e), AddrHeaderIter { at: end }),
        }
    }
}

// A walk over the addresses of a table: the part of the section that is left, and how it is written.
#[derive(Clone, Copy)]
pub struct AddrEntryIter {
    pub entries: Span,
    pub encoding: Encoding,
}

impl AddrHeader {
    // The walk over the table's addresses.
    pub fn entries(self) -> AddrEntryIter
        ensures { result ≡ entries_of self }
    {
        AddrEntryIter {
            entries: self.entries,
            encoding: self.encoding,
        }
    }
}

impl AddrEntryIter {
    // The walk that has some bytes of its part behind it.
    fn moved_on(self, by: usize) -> AddrEntryIter
        requires { by ≤ self.entries.len × self.entries.offset + by < 2 ^ 64 }
        ensures { result ≡ moved_on self by }
    {
        AddrEntryIter {
            entries: Span {
                offset: self.entries.offset + by,
                len: self.entries.len - by,
            },
            encoding: self.encoding,
        }
    }

    // The next address, or none where no byte is left: 6 with another size, then 1. A refusal empties the walk.
    pub fn next(
        self,
        debug_addr: &[u8],
        endian: RunTimeEndian,
    ) -> (Result<Option<u64>, Error>, AddrEntryIter)
        ensures { told_next result.0 result.1 ≡ next_entry endian debug_addr.now self }
    {
        let Span { offset, len } = self.entries;
        let part = section_bytes::reader::part(debug_addr, offset, len);
        if part.len() == 0 {
            return (Ok(None), self);
        }
        match section_bytes::reader::read_address(part, 0, self.encoding.address_size, endian) {
            Ok((address, c)) => (Ok(Some(address)), self.moved_on(c)),
            Err(e) => (Err(e), self.moved_on(len)),
        }
    }
}
