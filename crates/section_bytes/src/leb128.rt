// Unsigned LEB128 numbers.
ghost use Rattle.std.specs.Prelude.{◌≡◌, ◌+◌, ◌<◌, ◌≤◌, length, slice_index};
ghost use Rattle.section_bytes.specs.Error.{told};
ghost use Rattle.section_bytes.specs.Leb128.{unsigned as unsignedAt, told_single, single as singleAt};
ghost use Rattle.section_bytes.specs.Padded.{number_at};
ghost use Rattle.section_bytes.specs.Written.{unsigned_bytes};

use super::Read;
use super::error::Error;

// The number from its second byte on, given the first, which another follows.
fn unsigned_more(s: &[u8], at: usize) -> Read<u64>
    requires { (at < length s.now) × (128 ≤ slice_index s.now at) }
    ensures { told result ≡ unsignedAt s.now at }
{
    let mut result: u64 = (s[at] & 0x7f) as u64;
    let mut shift: u32 = 7;
    // An index, and no `for` over the bytes: with one, a range list read inside one call takes 1.026 of the instructions, median of 38 lists.
    let mut i = at + 1;
    while i < s.len() {
        let byte = s[i];
        i += 1;
        if shift == 63 && 1 < byte {
            return Err(Error::BadUnsignedLeb128);
        }
        result |= ((byte & 0x7f) as u64) << shift;
        if byte < 128 {
            return Ok((result, i));
        }
        shift += 7;
    }
    Err(Error::UnexpectedEof)
}

// The low seven bits of each byte, the first byte lowest, at most ten bytes: 1 where one is missing, 2 where the tenth
// is above 01. Most numbers in lists have one byte or two, which are read without the loop.
#[tactic(auto, using(crate::proofs::LebLaws::none, crate::proofs::LebLaws::one, crate::proofs::LebLaws::two))]
pub fn unsigned(s: &[u8], at: usize) -> Read<u64>
    ensures { told result ≡ unsignedAt s.now at }
{
    if s.len() <= at {
        return Err(Error::UnexpectedEof);
    }
    let byte = s[at];
    if byte < 128 {
        return Ok((byte as u64, at + 1));
    }
    let i = at + 1;
    if i < s.len() {
        let next = s[i];
        if next < 128 {
            let low = (byte & 0x7f) as u64;
            let high = (next & 0x7f) as u64;
            return Ok((low | (high << 7), i + 1));
        }
    }
    unsigned_more(s, at)
}

// The number at a place where it has one byte, with the place after it: a caller for whom nearly all have one goes on from it without the places where
// longer ones are put together.
#[tactic(auto, unfolding(crate::specs::Leb128::single))]
pub fn single(s: &[u8], at: usize) -> Option<(u64, usize)>
    ensures { told_single result ≡ singleAt s.now at }
{
    if at < s.len() {
        let byte = s[at];
        if byte < 128 {
            return Some((byte as u64, at + 1));
        }
    }
    None
}

// How many bytes the shortest unsigned LEB128 form of x has.
#[tactic(auto, using(crate::proofs::WrittenLaws::counted_start, crate::proofs::WrittenLaws::counted_step))]
pub fn unsigned_size(x: u64) -> usize
    ensures { result ≡ length (unsigned_bytes x) }
{
    let mut n: usize = 1;
    let mut rest = x;
    while 128 <= rest {
        n += 1;
        rest /= 128;
    }
    n
}

// A number, how many bytes it took, and whether a shorter form of it exists.
#[derive(Clone, Copy)]
pub struct Number {
    pub value: u64,
    pub len: usize,
    pub padded: bool,
}

// The number at a place, as `unsigned` reads it, with its length. The last byte of a shortest form has bits of the number, unless
// it is the only byte: so a padded one ends in 00.
#[tactic(auto, using(crate::proofs::ReaderLaws::reading, crate::proofs::PaddedLaws::moves, crate::proofs::PaddedLaws::ends_inside, crate::proofs::PaddedLaws::padded_by_last, crate::proofs::PaddedLaws::single_unpadded), unfolding(crate::specs::Padded::number_at))]
pub fn with_length(s: &[u8], at: usize) -> Read<Number>
    ensures { told result ≡ number_at s.now at }
{
    let (value, c) = unsigned(s, at)?;
    let len = c - at;
    let padded = 1 < len && s[c - 1] == 0;
    Ok((Number { value, len, padded }, c))
}
