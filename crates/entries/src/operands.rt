// What the readers of both lists share: operands whose form depends on the version, and a bare pair's end mark.
#![tactic(auto, using(section_bytes::proofs::ReaderLaws::goes_on, section_bytes::proofs::ReaderLaws::stops, section_bytes::proofs::ReaderLaws::handed_on, crate::proofs::OperandLaws::cut_within, section_bytes::proofs::LebLaws::single_is), unfolding(crate::specs::Forms::versioned_length, crate::specs::Forms::block))]

ghost use Rattle.std.specs.Prelude.{◌≡◌, ◌+◌, ◌<◌, ◌^◌, length};
ghost use Rattle.section_bytes.specs.Error.{told};
ghost use Rattle.section_bytes.specs.Read.{read_then};
ghost use Rattle.section_bytes.specs.Reader.{uint};
ghost use Rattle.entries.specs.Forms.{expression, versioned_length, block, operand};
ghost use Rattle.entries.specs.Kinds.{is_end};

use super::Expression;
use section_bytes::Read;
use section_bytes::common::Encoding;
use section_bytes::endianity::RunTimeEndian;

// The length of location kind 3: LEB128, and four bytes in split lists up to version 4. 1, 2.
pub(crate) fn read_length(
    part: &[u8],
    at: usize,
    encoding: Encoding,
    endian: RunTimeEndian,
) -> Read<u64>
    ensures { told result ≡ versioned_length 4 encoding endian part.now at }
{
    if encoding.version <= 4 {
        return section_bytes::reader::read_u32(part, at, endian);
    }
    section_bytes::leb128::unsigned(part, at)
}

// The bytes of an expression, whose length is read. 1.
fn expression_bytes(part: &[u8], at: usize, len: u64, start: usize) -> Read<Expression>
    requires { start + length part.now < 2 ^ 64 }
    ensures { told result ≡ block start part.now len at }
{
    let (span, c) = section_bytes::reader::split(part, at, len)?;
    let expression = Expression {
        offset: start + span.offset,
        len: span.len,
    };
    Ok((expression, c))
}

// An expression whose length has two bytes. 1.
pub(crate) fn short_expression(
    part: &[u8],
    at: usize,
    start: usize,
    endian: RunTimeEndian,
) -> Read<Expression>
    requires { start + length part.now < 2 ^ 64 }
    ensures { told result ≡ read_then (uint endian 2 part.now at) (block start part.now) }
{
    let (len, c) = section_bytes::reader::read_u16(part, at, endian)?;
    expression_bytes(part, c, len, start)
}

// An expression of a part that starts at a place of its section: its length, LEB128 or two bytes up to version 4, and as
// many bytes. 1, 2. A length of one byte goes straight on to the expression's bytes.
pub(crate) fn read_expression(
    part: &[u8],
    at: usize,
    start: usize,
    encoding: Encoding,
    endian: RunTimeEndian,
) -> Read<Expression>
    requires { start + length part.now < 2 ^ 64 }
    ensures { told result ≡ operand encoding endian start part.now expression at }
{
    if 5 <= encoding.version {
        if let Some((len, c)) = section_bytes::leb128::single(part, at) {
            return expression_bytes(part, c, len, start);
        }
        let (len, c) = section_bytes::leb128::unsigned(part, at)?;
        return expression_bytes(part, c, len, start);
    }
    short_expression(part, at, start, endian)
}

// Whether a bare pair ends its list.
pub(crate) fn is_end(begin: u64, end: u64) -> bool
    ensures { result ≡ is_end begin end }
{
    begin == 0 && end == 0
}
