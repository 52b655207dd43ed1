// Numbers read at a place of a section.
ghost use Rattle.std.specs.Prelude.{◌≡◌};
ghost use Rattle.section_bytes.specs.Address.{add_sized, ones, min_tombstone};
ghost use Rattle.section_bytes.specs.Padded.{number_at};
ghost use Rattle.section_bytes.specs.Reader.{skip as skipped, split as splitOff, truncate as cut, uint, address, address_size_at, word, initial_length};
ghost use Rattle.section_bytes.specs.declared.endianity.RunTimeEndian.TheVariants.{Little};
ghost use Rattle.ffi_words.specs.Common.{endian_of, endian_in, format_of};
ghost use Rattle.ffi_words.specs.Reads.{number_read, leb128_read, number_only, place_read, part_read, length_read};

use ffi_words::common::YzEncoding;
use ffi_words::reads::{YzLeb128, YzNumber, YzPlace, YzRead, YzSplitPart, YzUnitLength};

#[unsafe(no_mangle)]
pub extern "C" fn yz_uleb128(section: &[u8], at: usize) -> YzLeb128
    ensures { result ≡ leb128_read (number_at section.now at) }
{
    let r = section_bytes::leb128::with_length(section, at);
    ffi_words::reads::read_leb128(r)
}

#[unsafe(no_mangle)]
pub extern "C" fn yz_read_u8(section: &[u8], at: usize) -> YzRead
    ensures { result ≡ number_read (uint Little 1 section.now at) }
{
    let r = section_bytes::reader::read_u8(section, at);
    ffi_words::reads::read_number(r)
}

#[unsafe(no_mangle)]
pub extern "C" fn yz_read_u16(section: &[u8], big_endian: bool, at: usize) -> YzRead
    ensures { result ≡ number_read (uint (endian_of big_endian) 2 section.now at) }
{
    let endian = ffi_words::common::endian_of(big_endian);
    let r = section_bytes::reader::read_u16(section, at, endian);
    ffi_words::reads::read_number(r)
}

#[unsafe(no_mangle)]
pub extern "C" fn yz_read_u32(section: &[u8], big_endian: bool, at: usize) -> YzRead
    ensures { result ≡ number_read (uint (endian_of big_endian) 4 section.now at) }
{
    let endian = ffi_words::common::endian_of(big_endian);
    let r = section_bytes::reader::read_u32(section, at, endian);
    ffi_words::reads::read_number(r)
}

#[unsafe(no_mangle)]
pub extern "C" fn yz_read_u64(section: &[u8], big_endian: bool, at: usize) -> YzRead
    ensures { result ≡ number_read (uint (endian_of big_endian) 8 section.now at) }
{
    let endian = ffi_words::common::endian_of(big_endian);
    let r = section_bytes::reader::read_u64(section, at, endian);
    ffi_words::reads::read_number(r)
}

#[unsafe(no_mangle)]
pub extern "C" fn yz_read_address(section: &[u8], encoding: YzEncoding, at: usize) -> YzRead
    ensures { result ≡ number_read (address (endian_in encoding) encoding.address_size section.now at) }
{
    let endian = ffi_words::common::endian_in(encoding);
    let r = section_bytes::reader::read_address(section, at, encoding.address_size, endian);
    ffi_words::reads::read_number(r)
}

#[unsafe(no_mangle)]
pub extern "C" fn yz_read_address_size(section: &[u8], at: usize) -> YzRead
    ensures { result ≡ number_read (address_size_at section.now at) }
{
    let r = section_bytes::reader::read_address_size(section, at);
    ffi_words::reads::read_number(r)
}

#[unsafe(no_mangle)]
pub extern "C" fn yz_read_offset(section: &[u8], encoding: YzEncoding, at: usize) -> YzRead
    ensures { result ≡ number_read (word (endian_in encoding) (format_of encoding.dwarf64) section.now at) }
{
    let format = ffi_words::common::format_of(encoding.dwarf64);
    let endian = ffi_words::common::endian_in(encoding);
    let r = section_bytes::reader::read_offset(section, at, format, endian);
    ffi_words::reads::read_number(r)
}

#[unsafe(no_mangle)]
pub extern "C" fn yz_initial_length(section: &[u8], big_endian: bool, at: usize) -> YzUnitLength
    ensures { result ≡ length_read (initial_length (endian_of big_endian) section.now at) }
{
    let endian = ffi_words::common::endian_of(big_endian);
    let r = section_bytes::reader::read_initial_length(section, at, endian);
    ffi_words::reads::read_length(r)
}

#[unsafe(no_mangle)]
pub extern "C" fn yz_skip(section: &[u8], at: usize, len: u64) -> YzPlace
    ensures { result ≡ place_read (skipped len section.now at) }
{
    let r = section_bytes::reader::skip(section, at, len);
    ffi_words::reads::read_place(r)
}

#[unsafe(no_mangle)]
pub extern "C" fn yz_split(section: &[u8], at: usize, len: u64) -> YzSplitPart
    ensures { result ≡ part_read (splitOff len section.now at) }
{
    let r = section_bytes::reader::split(section, at, len);
    ffi_words::reads::read_part(r)
}

#[unsafe(no_mangle)]
pub extern "C" fn yz_truncate(section: &[u8], at: usize, len: u64) -> YzNumber
    ensures { result ≡ number_only (cut len section.now at) }
{
    let r = section_bytes::reader::truncate(section, at, len);
    ffi_words::reads::number_only(r)
}

#[unsafe(no_mangle)]
pub extern "C" fn yz_wrapping_add_sized(address: u64, length: u64, address_size: u8) -> u64
    ensures { result ≡ add_sized address «length» address_size }
{
    section_bytes::address::wrapping_add_sized(address, length, address_size)
}

#[unsafe(no_mangle)]
pub extern "C" fn yz_min_tombstone(address_size: u8) -> u64
    ensures { result ≡ min_tombstone address_size }
{
    section_bytes::address::min_tombstone(address_size)
}

#[unsafe(no_mangle)]
pub extern "C" fn yz_ones_sized(address_size: u8) -> u64
    ensures { result ≡ ones address_size }
{
    section_bytes::address::ones_sized(address_size)
}
