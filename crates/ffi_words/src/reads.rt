// Numbers read at a place of a section.
ghost use Rattle.std.specs.Prelude.{◌≡◌};
ghost use Rattle.section_bytes.specs.Error.{told, told_place};
ghost use Rattle.ffi_words.specs.Common.{done};
ghost use Rattle.ffi_words.specs.Reads.{number_told, no_number, number_read, leb128_read, number_only, place_read, part_read, length_read};

use super::common::{DONE, YzDone, YzPart};
use section_bytes::error::Error;
use section_bytes::leb128::Number;
use section_bytes::{Read, Span, UnitLength};

// A number.
#[repr(C)]
#[derive(Clone, Copy)]
pub struct YzNumber {
    pub done: YzDone,
    pub number: u64,
}

// The place after what was read, and the number there.
#[repr(C)]
#[derive(Clone, Copy)]
pub struct YzRead {
    pub done: YzDone,
    pub next: u64,
    pub number: u64,
}

// The place after a LEB128 number, the number, how many bytes it took, and 1 where a shorter form of it exists.
#[repr(C)]
#[derive(Clone, Copy)]
pub struct YzLeb128 {
    pub done: YzDone,
    pub next: u64,
    pub number: u64,
    pub length: u64,
    pub padded: u64,
}

// The place after what was passed over.
#[repr(C)]
#[derive(Clone, Copy)]
pub struct YzPlace {
    pub done: YzDone,
    pub next: u64,
}

// The place after a part, and the part.
#[repr(C)]
#[derive(Clone, Copy)]
pub struct YzSplitPart {
    pub done: YzDone,
    pub next: u64,
    pub part: YzPart,
}

// The place after an initial length, the length, and 1 for 64-bit DWARF.
#[repr(C)]
#[derive(Clone, Copy)]
pub struct YzUnitLength {
    pub done: YzDone,
    pub next: u64,
    pub length: u64,
    pub dwarf64: u64,
}

pub fn number(number: u64) -> YzNumber
    ensures { result ≡ number_told done number }
{
    YzNumber {
        done: super::common::comes_to(DONE),
        number,
    }
}

pub fn no_number(done: YzDone) -> YzNumber
    ensures { result ≡ no_number done }
{
    YzNumber { done, number: 0 }
}

pub fn read_number(r: Read<u64>) -> YzRead
    ensures { result ≡ number_read (told r) }
{
    match r {
        Ok((number, c)) => YzRead {
            done: super::common::comes_to(DONE),
            next: c as u64,
            number,
        },
        Err(e) => YzRead {
            done: super::common::refused(e),
            next: 0,
            number: 0,
        },
    }
}

pub fn read_leb128(r: Read<Number>) -> YzLeb128
    ensures { result ≡ leb128_read (told r) }
{
    match r {
        Ok((x, c)) => YzLeb128 {
            done: super::common::comes_to(DONE),
            next: c as u64,
            number: x.value,
            length: x.len as u64,
            padded: x.padded as u64,
        },
        Err(e) => YzLeb128 {
            done: super::common::refused(e),
            next: 0,
            number: 0,
            length: 0,
            padded: 0,
        },
    }
}

// The number without the place.
pub fn number_only(r: Read<u64>) -> YzNumber
    ensures { result ≡ number_only (told r) }
{
    match r {
        Ok((v, _)) => number(v),
        Err(e) => no_number(super::common::refused(e)),
    }
}

pub fn read_place(r: Result<usize, Error>) -> YzPlace
    ensures { result ≡ place_read (told_place r) }
{
    match r {
        Ok(c) => YzPlace {
            done: super::common::comes_to(DONE),
            next: c as u64,
        },
        Err(e) => YzPlace {
            done: super::common::refused(e),
            next: 0,
        },
    }
}

pub fn read_part(r: Read<Span>) -> YzSplitPart
    ensures { result ≡ part_read (told r) }
{
    match r {
        Ok((span, c)) => YzSplitPart {
            done: super::common::comes_to(DONE),
            next: c as u64,
            part: YzPart {
                offset: span.offset as u64,
                length: span.len as u64,
            },
        },
        Err(e) => YzSplitPart {
            done: super::common::refused(e),
            next: 0,
            part: super::common::no_part(),
        },
    }
}

pub fn read_length(r: Read<UnitLength>) -> YzUnitLength
    ensures { result ≡ length_read (told r) }
{
    match r {
        Ok((length, c)) => {
            let format = length.format;
            YzUnitLength {
                done: super::common::comes_to(DONE),
                next: c as u64,
                length: length.length,
                dwarf64: super::common::is_dwarf64(format) as u64,
            }
        }
        Err(e) => YzUnitLength {
            done: super::common::refused(e),
            next: 0,
            length: 0,
            dwarf64: 0,
        },
    }
}
