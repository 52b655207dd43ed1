// Headers, address tables, offset tables.
ghost use Rattle.std.specs.Prelude.{◌≡◌};
ghost use Rattle.section_bytes.specs.Error.{told_value};
ghost use Rattle.tables.specs.Next.{told_next};
ghost use Rattle.tables.specs.Lists.{told_lists};
ghost use Rattle.tables.specs.Row.{told_range_offset, told_location_offset};
ghost use Rattle.ffi_words.specs.Common.{left};
ghost use Rattle.ffi_words.specs.Reads.{number_result};
ghost use Rattle.ffi_words.specs.Headers.{lists_told, no_table, table_next, entries_in, entries_left, entry_next};

use super::common::{DONE, END, YzDone, YzEncoding, YzPart};
use super::reads::YzNumber;
use section_bytes::Span;
use section_bytes::common::{Encoding, LocationListsOffset, RangeListsOffset};
use section_bytes::error::Error;
use tables::addr::{AddrEntryIter, AddrHeader, AddrHeaderIter};
use tables::lists::ListsHeader;

// A header of lists: how its unit is written, how many offsets it counts, its own size, and what is left of the unit.
#[repr(C)]
#[derive(Clone, Copy)]
pub struct YzListsHeader {
    pub done: YzDone,
    pub encoding: YzEncoding,
    pub offset_entry_count: u64,
    pub header_size: u64,
    pub rest: YzPart,
}

// The header of an address table: how it is written, where it stands, its length, and where its addresses are.
#[repr(C)]
#[derive(Clone, Copy)]
pub struct YzTableHeader {
    pub done: YzDone,
    pub encoding: YzEncoding,
    pub offset: u64,
    pub length: u64,
    pub entries: YzPart,
}

// The place of the next header, in and out.
pub type HeadersWords = [u64; 1];

// What is left of a table's addresses, in and out: offset and length.
pub type EntriesWords = [u64; 2];

pub fn address_number(r: Result<u64, Error>) -> YzNumber
    ensures { result ≡ number_result (told_value r) }
{
    match r {
        Ok(v) => super::reads::number(v),
        Err(e) => super::reads::no_number(super::common::refused(e)),
    }
}

pub fn range_offset_number(r: Result<RangeListsOffset, Error>) -> YzNumber
    ensures { result ≡ number_result (told_range_offset r) }
{
    match r {
        Ok(v) => super::reads::number(v.0),
        Err(e) => super::reads::no_number(super::common::refused(e)),
    }
}

pub fn location_offset_number(r: Result<LocationListsOffset, Error>) -> YzNumber
    ensures { result ≡ number_result (told_location_offset r) }
{
    match r {
        Ok(v) => super::reads::number(v.0),
        Err(e) => super::reads::no_number(super::common::refused(e)),
    }
}

// The encoding of a header has the byte order that it was read in.
pub fn lists_header(r: Result<(ListsHeader, Span), Error>, big_endian: bool) -> YzListsHeader
    ensures { result ≡ lists_told big_endian (told_lists r) }
{
    match r {
        Ok((header, rest)) => {
            let encoding = header.encoding;
            YzListsHeader {
                done: super::common::comes_to(DONE),
                encoding: super::common::encoding_told(encoding, big_endian),
                offset_entry_count: header.offset_entry_count,
                header_size: header.size(),
                rest: YzPart {
                    offset: rest.offset as u64,
                    length: rest.len as u64,
                },
            }
        }
        Err(e) => YzListsHeader {
            done: super::common::refused(e),
            encoding: super::common::no_encoding(),
            offset_entry_count: 0,
            header_size: 0,
            rest: super::common::no_part(),
        },
    }
}

fn no_table(done: YzDone) -> YzTableHeader
    ensures { result ≡ no_table done }
{
    YzTableHeader {
        done,
        encoding: super::common::no_encoding(),
        offset: 0,
        length: 0,
        entries: super::common::no_part(),
    }
}

pub fn table_next(
    handed: (Result<Option<AddrHeader>, Error>, AddrHeaderIter),
    big_endian: bool,
    words: &mut HeadersWords,
) -> YzTableHeader
    ensures { left result words.new ≡ table_next big_endian (told_next handed.0 handed.1) }
{
    let (answer, walk) = handed;
    *words = [walk.at as u64];
    match answer {
        Ok(Some(header)) => YzTableHeader {
            done: super::common::comes_to(DONE),
            encoding: super::common::encoding_told(header.encoding, big_endian),
            offset: header.offset.0,
            length: header.length,
            entries: YzPart {
                offset: header.entries.offset as u64,
                length: header.entries.len as u64,
            },
        },
        Ok(None) => no_table(super::common::comes_to(END)),
        Err(e) => no_table(super::common::refused(e)),
    }
}

// What is left of a table's addresses, with the encoding that they are read by.
pub fn entries_in(words: &EntriesWords, encoding: Encoding) -> AddrEntryIter
    ensures { result ≡ entries_in encoding words.now }
{
    let entries = Span {
        offset: words[0] as usize,
        len: words[1] as usize,
    };
    AddrEntryIter { entries, encoding }
}

fn hand_back_entries(words: &mut EntriesWords, walk: AddrEntryIter)
    ensures { words.new ≡ entries_left walk }
{
    let entries = walk.entries;
    *words = [entries.offset as u64, entries.len as u64];
}

pub fn entry_next(
    handed: (Result<Option<u64>, Error>, AddrEntryIter),
    words: &mut EntriesWords,
) -> YzNumber
    ensures { left result words.new ≡ entry_next (told_next handed.0 handed.1) }
{
    let (answer, walk) = handed;
    hand_back_entries(words, walk);
    match answer {
        Ok(Some(address)) => super::reads::number(address),
        Ok(None) => super::reads::no_number(super::common::comes_to(END)),
        Err(e) => super::reads::no_number(super::common::refused(e)),
    }
}
