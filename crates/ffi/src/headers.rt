// Headers, address tables, offset tables.
ghost use Rattle.std.specs.Prelude.{◌≡◌};
ghost use Rattle.tables.specs.Addr.{address_at, next_header, next_entry};
ghost use Rattle.tables.specs.Lists.{lists_header, default_base};
ghost use Rattle.tables.specs.Row.{range_offset, location_offset};
ghost use Rattle.ffi_words.specs.Common.{endian_of, endian_in, format_of, encoding_of, is_set, file_of, left};
ghost use Rattle.ffi_words.specs.Reads.{number_result};
ghost use Rattle.ffi_words.specs.Headers.{lists_told, headers_in, table_next, entries_in, entry_next};

use ffi_words::common::YzEncoding;
use ffi_words::headers::{EntriesWords, HeadersWords, YzListsHeader, YzTableHeader};
use ffi_words::reads::YzNumber;
use section_bytes::common::{
    DebugAddrBase, DebugAddrIndex, DebugLocListsBase, DebugLocListsIndex, DebugRngListsBase,
    DebugRngListsIndex,
};
use tables::addr::AddrHeaderIter;
use tables::lists::ListsHeader;

#[unsafe(no_mangle)]
pub extern "C" fn yz_get_address(
    debug_addr: &[u8],
    debug_addr_base: u64,
    encoding: YzEncoding,
    index: u64,
) -> YzNumber
    ensures { result ≡ number_result (address_at (endian_in encoding) encoding.address_size (record { 0 = debug_addr_base }) (record { 0 = index }) debug_addr.now) }
{
    let endian = ffi_words::common::endian_in(encoding);
    let r = tables::addr::get_address(
        debug_addr,
        encoding.address_size,
        DebugAddrBase(debug_addr_base),
        DebugAddrIndex(index),
        endian,
    );
    ffi_words::headers::address_number(r)
}

#[unsafe(no_mangle)]
pub extern "C" fn yz_table_next(
    debug_addr: &[u8],
    big_endian: bool,
    at: &mut HeadersWords,
) -> YzTableHeader
    ensures { left result at.new ≡ table_next big_endian (next_header (endian_of big_endian) debug_addr.now (headers_in at.old)) }
{
    let start = AddrHeaderIter { at: at[0] as usize };
    let endian = ffi_words::common::endian_of(big_endian);
    let r = start.next(debug_addr, endian);
    ffi_words::headers::table_next(r, big_endian, at)
}

#[unsafe(no_mangle)]
pub extern "C" fn yz_table_entry_next(
    debug_addr: &[u8],
    encoding: YzEncoding,
    entries: &mut EntriesWords,
) -> YzNumber
    ensures { left result entries.new ≡ entry_next (next_entry (endian_in encoding) debug_addr.now (entries_in (encoding_of encoding) entries.old)) }
{
    let unit = ffi_words::common::encoding_of(encoding);
    let start = ffi_words::headers::entries_in(entries, unit);
    let endian = ffi_words::common::endian_in(encoding);
    let r = start.next(debug_addr, endian);
    ffi_words::headers::entry_next(r, entries)
}

#[unsafe(no_mangle)]
pub extern "C" fn yz_lists_header(section: &[u8], big_endian: bool, at: usize) -> YzListsHeader
    ensures { result ≡ lists_told big_endian (lists_header (endian_of big_endian) section.now at) }
{
    let endian = ffi_words::common::endian_of(big_endian);
    let r = ListsHeader::parse(section, at, endian);
    ffi_words::headers::lists_header(r, big_endian)
}

#[unsafe(no_mangle)]
pub extern "C" fn yz_range_get_offset(
    debug_rnglists: &[u8],
    debug_rnglists_base: u64,
    encoding: YzEncoding,
    index: u64,
) -> YzNumber
    ensures { result ≡ number_result (range_offset (endian_in encoding) (format_of encoding.dwarf64) (record { 0 = debug_rnglists_base }) (record { 0 = index }) debug_rnglists.now) }
{
    let unit = ffi_words::common::encoding_of(encoding);
    let endian = ffi_words::common::endian_in(encoding);
    let r = tables::rnglists::get_offset(
        debug_rnglists,
        unit,
        DebugRngListsBase(debug_rnglists_base),
        DebugRngListsIndex(index),
        endian,
    );
    ffi_words::headers::range_offset_number(r)
}

// A file type is 0 for an ordinary file, and any other number for a split one.
#[unsafe(no_mangle)]
pub extern "C" fn yz_range_default_base(encoding: YzEncoding, file_type: u32) -> u64
    ensures { result ≡ default_base (encoding_of encoding) (file_of (is_set file_type)) }
{
    let unit = ffi_words::common::encoding_of(encoding);
    let file = ffi_words::common::file_of(file_type as u64);
    let base = tables::rnglists::default_for_encoding_and_file(unit, file);
    base.0
}

#[unsafe(no_mangle)]
pub extern "C" fn yz_location_get_offset(
    debug_loclists: &[u8],
    debug_loclists_base: u64,
    encoding: YzEncoding,
    index: u64,
) -> YzNumber
    ensures { result ≡ number_result (location_offset (endian_in encoding) (format_of encoding.dwarf64) (record { 0 = debug_loclists_base }) (record { 0 = index }) debug_loclists.now) }
{
    let unit = ffi_words::common::encoding_of(encoding);
    let endian = ffi_words::common::endian_in(encoding);
    let r = tables::loclists::get_offset(
        debug_loclists,
        unit,
        DebugLocListsBase(debug_loclists_base),
        DebugLocListsIndex(index),
        endian,
    );
    ffi_words::headers::location_offset_number(r)
}

#[unsafe(no_mangle)]
pub extern "C" fn yz_location_default_base(encoding: YzEncoding, file_type: u32) -> u64
    ensures { result ≡ default_base (encoding_of encoding) (file_of (is_set file_type)) }
{
    let unit = ffi_words::common::encoding_of(encoding);
    let file = ffi_words::common::file_of(file_type as u64);
    let base = tables::loclists::default_for_encoding_and_file(unit, file);
    base.0
}
