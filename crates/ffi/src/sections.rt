// The interface's version, which section a unit's lists stand in, and where an expression lies in one.
ghost use Rattle.std.specs.Prelude.{◌≡◌};
ghost use Rattle.ffi_words.specs.Common.{encoding_of};
ghost use Rattle.ffi_words.specs.Sections.{section_told, lying};

use ffi_words::common::{YzEncoding, YzPart};

#[unsafe(no_mangle)]
pub extern "C" fn yz_version() -> u32
    ensures { result ≡ 10 }
{
    10
}

// Of the two sections, the one that has the lists of the unit.
#[unsafe(no_mangle)]
pub extern "C" fn yz_section_of(encoding: YzEncoding) -> u32
    ensures { result ≡ section_told (encoding_of encoding) }
{
    if encoding.version <= 4 {
        return 0;
    }
    1
}

// The part itself where it lies in the section, else the empty part at the section's start.
#[unsafe(no_mangle)]
pub extern "C" fn yz_expression(section: &[u8], expression: YzPart) -> YzPart
    ensures { result ≡ lying section.now expression }
{
    let n = section.len() as u64;
    if n < expression.offset {
        return ffi_words::common::no_part();
    }
    if n - expression.offset < expression.length {
        return ffi_words::common::no_part();
    }
    expression
}
