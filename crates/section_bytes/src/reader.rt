// Reads at a place of a section: 1 where bytes are missing.
#![tactic(auto, using(crate::proofs::ReaderLaws::reading), unfolding(crate::specs::Reader::skip, crate::specs::Reader::part_of, crate::specs::Reader::uint, crate::specs::Reader::is_size, crate::specs::Reader::split, crate::specs::Reader::truncate, crate::specs::Reader::address, crate::specs::Reader::address_size_at, crate::specs::Reader::initial_length))]

ghost use Rattle.std.specs.Prelude.{◌≡◌, ◌+◌, ◌<◌, ◌≤◌, true};
ghost use Rattle.section_bytes.specs.Error.{told, told_place};
ghost use Rattle.section_bytes.specs.Reader.{skip as skipped, split as splitOff, truncate as cut, part_of, uint, address, address_size_at, is_size, word, initial_length};

use super::common::Format;
use super::endianity::RunTimeEndian;
use super::error::Error;
use super::{Read, Span, UnitLength};

// The place after len more bytes.
pub fn skip(s: &[u8], at: usize, len: u64) -> Result<usize, Error>
    ensures { told_place result ≡ skipped len s.now at }
{
    if s.len() < at {
        return Err(Error::UnexpectedEof);
    }
    if ((s.len() - at) as u64) < len {
        return Err(Error::UnexpectedEof);
    }
    Ok(at + (len as usize))
}

// The len bytes from a place on as a part of the section, and the place after them.
pub fn split(s: &[u8], at: usize, len: u64) -> Read<Span>
    ensures { told result ≡ splitOff len s.now at }
{
    let end = skip(s, at, len)?;
    let part = Span {
        offset: at,
        len: len as usize,
    };
    Ok((part, end))
}

// Where the section ends that is cut len bytes after the place: the number; the place stays.
pub fn truncate(s: &[u8], at: usize, len: u64) -> Read<u64>
    ensures { told result ≡ cut len s.now at }
{
    let end = skip(s, at, len)?;
    Ok((end as u64, at))
}

// The bytes of a part of the section; the empty part where it does not lie in the section.
pub fn part(s: &[u8], offset: usize, len: usize) -> &[u8]
    ensures { result.now ≡ part_of s.now offset len }
{
    let n = s.len();
    if n < offset {
        return &s[..0];
    }
    if n - offset < len {
        return &s[..0];
    }
    let end = offset + len;
    &s[offset..end]
}

// Whether addresses of a size are read: 1, 2, 3, 4 or 8. By one comparison, which the compiler sees to be the same in a walk's loop as
// before it: of size - 1 nothing may be left above 7, and with size it may share the bit of 2 alone, as 3 does. The others share none.
#[tactic(auto, using(crate::proofs::ReaderLaws::by_bits))]
pub fn is_address_size(size: u64) -> bool
    ensures { result ≡ is_size size }
{
    let below = size.wrapping_sub(1);
    ((size & below) | (below / 8 * 8)) < 3
}

// A number of size bytes.
fn read_uint(s: &[u8], at: usize, size: usize, endian: RunTimeEndian) -> Read<u64>
    requires { is_size size ≡ true }
    ensures { told result ≡ uint endian size s.now at }
{
    if s.len() < at {
        return Err(Error::UnexpectedEof);
    }
    if s.len() - at < size {
        return Err(Error::UnexpectedEof);
    }
    let v = super::endianity::bytes_value(s, at, size, endian);
    Ok((v, at + size))
}

pub fn read_u8(s: &[u8], at: usize) -> Read<u64>
    ensures { told result ≡ uint RunTimeEndian.Little 1 s.now at }
{
    read_uint(s, at, 1, RunTimeEndian::Little)
}

pub fn read_u16(s: &[u8], at: usize, endian: RunTimeEndian) -> Read<u64>
    ensures { told result ≡ uint endian 2 s.now at }
{
    read_uint(s, at, 2, endian)
}

pub fn read_u32(s: &[u8], at: usize, endian: RunTimeEndian) -> Read<u64>
    ensures { told result ≡ uint endian 4 s.now at }
{
    read_uint(s, at, 4, endian)
}

pub fn read_u64(s: &[u8], at: usize, endian: RunTimeEndian) -> Read<u64>
    ensures { told result ≡ uint endian 8 s.now at }
{
    read_uint(s, at, 8, endian)
}

// An address size in a header: 1, then 6 with the size.
pub fn read_address_size(s: &[u8], at: usize) -> Read<u64>
    ensures { told result ≡ address_size_at s.now at }
{
    let (size, c) = read_u8(s, at)?;
    if is_address_size(size) {
        return Ok((size, c));
    }
    Err(Error::UnsupportedAddressSize(size))
}

// An address of a size: 6 with the size, then 1.
pub fn read_address(s: &[u8], at: usize, size: u8, endian: RunTimeEndian) -> Read<u64>
    ensures { told result ≡ address endian size s.now at }
{
    if is_address_size(size as u64) {
        return read_uint(s, at, size as usize, endian);
    }
    Err(Error::UnsupportedAddressSize(size as u64))
}

// A number of four bytes, or eight in 64-bit DWARF.
pub fn read_word(s: &[u8], at: usize, format: Format, endian: RunTimeEndian) -> Read<u64>
    ensures { told result ≡ word endian format s.now at }
{
    match format {
        Format::Dwarf32 => read_u32(s, at, endian),
        Format::Dwarf64 => read_u64(s, at, endian),
    }
}

// An offset into a section.
pub fn read_offset(s: &[u8], at: usize, format: Format, endian: RunTimeEndian) -> Read<u64>
    ensures { told result ≡ word endian format s.now at }
{
    read_word(s, at, format, endian)
}

// A unit's length and format: 1, then 8 with the value from 0xfffffff0 to 0xfffffffe.
pub fn read_initial_length(s: &[u8], at: usize, endian: RunTimeEndian) -> Read<UnitLength>
    ensures { told result ≡ initial_length endian s.now at }
{
    let (n, c) = read_u32(s, at, endian)?;
    if n < 0xfffffff0 {
        let unit = UnitLength {
            length: n,
            format: Format::Dwarf32,
        };
        return Ok((unit, c));
    }
    if n != 0xffffffff {
        return Err(Error::UnknownReservedLength(n));
    }
    let (m, d) = read_u64(s, c, endian)?;
    let unit = UnitLength {
        length: m,
        format: Format::Dwarf64,
    };
    Ok((unit, d))
}
