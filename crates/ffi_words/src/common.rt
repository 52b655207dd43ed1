// What a call is told of a unit, a part of a section, and what a call comes to.
ghost use Rattle.std.specs.Prelude.{◌≡◌};
ghost use Rattle.section_bytes.specs.Error.{number, values};
ghost use Rattle.ffi_words.specs.Common.{endian_of, endian_in, format_of, encoding_of, unit_of, is_set, file_of, is_dwarf64, encoding_told, no_encoding, no_part, comes_to, refused_by};

use lists::Unit;
use section_bytes::common::{DebugAddrBase, DwarfFileType, Encoding, Format};
use section_bytes::endianity::RunTimeEndian;
use section_bytes::error::Error;

// How a unit is written; any number but 0 says big-endian. It has 8 bytes: a caller that is out of registers passes it with one
// store, which can be forwarded to the load here.
#[repr(C)]
#[derive(Clone, Copy)]
pub struct YzEncoding {
    pub version: u16,
    pub address_size: u8,
    pub dwarf64: bool,
    pub big_endian: u32,
}

// A part of a section.
#[repr(C)]
#[derive(Clone, Copy)]
pub struct YzPart {
    pub offset: u64,
    pub length: u64,
}

// What a call comes to, and why it is refused: each answer begins with it.
#[repr(C)]
#[derive(Clone, Copy)]
pub struct YzDone {
    pub result: u32,
    pub refusal: u32,
    pub refusal_value: u64,
}

// The results.
pub const DONE: u32 = 0;

pub const END: u32 = 1;

pub const NOTHING: u32 = 2;

pub const NOT_THERE: u32 = 3;

pub const REFUSED: u32 = 4;

pub fn endian_of(big_endian: bool) -> RunTimeEndian
    ensures { result ≡ endian_of big_endian }
{
    if big_endian {
        return RunTimeEndian::Big;
    }
    RunTimeEndian::Little
}

pub fn endian_in(encoding: YzEncoding) -> RunTimeEndian
    ensures { result ≡ endian_in encoding }
{
    endian_of(is_set(encoding.big_endian as u64))
}

pub fn format_of(dwarf64: bool) -> Format
    ensures { result ≡ format_of dwarf64 }
{
    if dwarf64 {
        return Format::Dwarf64;
    }
    Format::Dwarf32
}

pub fn encoding_of(encoding: YzEncoding) -> Encoding
    ensures { result ≡ encoding_of encoding }
{
    let format = format_of(encoding.dwarf64);
    Encoding {
        address_size: encoding.address_size,
        format,
        version: encoding.version,
    }
}

// A unit by its encoding, and its table of addresses.
pub fn unit_of<'a>(encoding: YzEncoding, debug_addr: &'a [u8], debug_addr_base: u64) -> Unit<'a>
    ensures { result ≡ unit_of encoding debug_addr.entry debug_addr_base }
{
    Unit {
        encoding: encoding_of(encoding),
        endian: endian_in(encoding),
        debug_addr,
        debug_addr_base: DebugAddrBase(debug_addr_base),
    }
}

// Whether a word says yes: any but 0 does.
pub fn is_set(word: u64) -> bool
    ensures { result ≡ is_set word }
{
    word != 0
}

// The kind of file that a word tells.
pub fn file_of(word: u64) -> DwarfFileType
    ensures { result ≡ file_of (is_set word) }
{
    if is_set(word) {
        return DwarfFileType::Dwo;
    }
    DwarfFileType::Main
}

pub fn is_dwarf64(format: Format) -> bool
    ensures { result ≡ is_dwarf64 format }
{
    match format {
        Format::Dwarf32 => false,
        Format::Dwarf64 => true,
    }
}

// An encoding told, with the byte order that it was read in.
pub fn encoding_told(encoding: Encoding, big_endian: bool) -> YzEncoding
    ensures { result ≡ encoding_told encoding big_endian }
{
    let format = encoding.format;
    YzEncoding {
        version: encoding.version,
        address_size: encoding.address_size,
        dwarf64: is_dwarf64(format),
        big_endian: big_endian as u32,
    }
}

pub fn comes_to(res: u32) -> YzDone
    ensures { result ≡ comes_to res }
{
    YzDone {
        result: res,
        refusal: 0,
        refusal_value: 0,
    }
}

pub fn refused(e: Error) -> YzDone
    ensures { result ≡ refused_by (number e) (values e) }
{
    YzDone {
        result: REFUSED,
        refusal: e.number() as u32,
        refusal_value: e.value(),
    }
}

pub fn no_part() -> YzPart
    ensures { result ≡ no_part }
{
    YzPart {
        offset: 0,
        length: 0,
    }
}

pub fn no_encoding() -> YzEncoding
    ensures { result ≡ no_encoding }
{
    YzEncoding {
        version: 0,
        address_size: 0,
        dwarf64: false,
        big_endian: 0,
    }
}
