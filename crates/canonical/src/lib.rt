// The canonical list of a coverage, written into lent bytes.
#![tactic(auto)]

pub mod form;
pub mod of_list;

ghost use Rattle.std.specs.Prelude.{◌≡◌, ◌+◌, ◌≤◌, length};
ghost use Rattle.std.proofs.lemmas.List.Edits.{sets};
ghost use Rattle.section_bytes.specs.Written.{unsigned_bytes};
ghost use Rattle.canonical.specs.Canonical.{canonical_bytes, canonical_kept};
ghost use Rattle.coverage.specs.Output.{output, written};
ghost use Rattle.section_bytes.specs.Error.{told_value};
ghost use Rattle.coverage.specs.Kept.{counted, firsts};
ghost use Rattle.canonical.specs.Arrays.{Arrays};
ghost use Rattle.canonical.specs.Put.{Enough, Put};

use coverage::lawful::is_lawful;
use coverage::{Coverage, LIMIT};
use entries::constants;
use section_bytes::error::Error;
use section_bytes::leb128::unsigned_size;
use section_bytes::put::put_u64;

// The shortest unsigned LEB128 form of x from a place on, and the place after it.
fn put_unsigned(out: &mut [u8], at: usize, x: u64) -> usize
    requires { at + length (unsigned_bytes x) ≤ length out.old }
    ensures { (result ≡ at + length (unsigned_bytes x)) × (out.new ≡ sets out.old at (unsigned_bytes x)) }
{
    let mut p = at;
    let mut rest = x;
    while 128 <= rest {
        out[p] = (rest % 128 + 128) as u8;
        p += 1;
        rest /= 128;
    }
    out[p] = rest as u8;
    p + 1
}

// How many bytes the canonical list of the first n ranges has.
fn size(n: usize, begins: &[u64], ends: &[u64]) -> usize
    requires { Arrays n begins.now ends.now }
    ensures { result ≡ length (canonical_bytes (firsts n begins.now ends.now)) }
{
    let mut i: usize = 0;
    let mut at: usize = 0;
    while i < n {
        at = at + 9 + unsigned_size(ends[i] - begins[i]);
        i += 1;
    }
    at + 1
}

// How many bytes are enough for the canonical list of the first n ranges. Where len bytes are enough for entries as long as an
// entry can be, these are not counted.
fn enough(n: usize, begins: &[u64], ends: &[u64], len: usize) -> usize
    requires { Arrays n begins.now ends.now }
    ensures { Enough result (length (canonical_bytes (firsts n begins.now ends.now))) len }
{
    let most = n * 19 + 1;
    if most <= len {
        return most;
    }
    size(n, begins, ends)
}

// The canonical list of the first n ranges, from the output's begin on, and how many bytes it has.
fn write(n: usize, begins: &[u64], ends: &[u64], out: &mut [u8]) -> usize
    requires arrays { Arrays n begins.now ends.now }
    requires ends_in_bounds { length (canonical_bytes (firsts n begins.now ends.now)) ≤ length out.old }
    ensures value { result ≡ length (canonical_bytes (firsts n begins.now ends.now)) }
    ensures out_after { out.new ≡ sets out.old 0 (canonical_bytes (firsts n begins.now ends.now)) }
{
    let mut i: usize = 0;
    let mut at: usize = 0;
    while i < n {
        let begin = begins[i];
        let end = ends[i];
        out[at] = constants::DW_RLE_start_length as u8;
        put_u64(out, at + 1, begin);
        at = put_unsigned(out, at + 9, end - begin);
        i += 1;
    }
    out[at] = constants::DW_RLE_end_of_list as u8;
    at + 1
}

// The canonical list of the first n ranges, and how many bytes it has; where the output is shorter, 11, and nothing is
// written.
pub(crate) fn put_list(
    n: usize,
    begins: &[u64],
    ends: &[u64],
    out: &mut [u8],
) -> Result<usize, Error>
    requires { Arrays n begins.now ends.now }
    ensures { Put result (canonical_bytes (firsts n begins.now ends.now)) out.old out.new }
{
    let len = enough(n, begins, ends, out.len());
    if out.len() < len {
        return Err(Error::NoSpace);
    }
    Ok(write(n, begins, ends, out))
}

// The canonical list of a coverage in two arrays, and how many bytes it has: 12 where it makes no lawful sheet, then 11.
pub fn canonical_of(
    n: usize,
    begins: &[u64; LIMIT],
    ends: &[u64; LIMIT],
    out: &mut [u8],
) -> Result<usize, Error>
    ensures { output (told_value result) out.new ≡ written (canonical_kept (counted n begins.now ends.now)) out.old }
{
    if !is_lawful(n, begins, ends) {
        return Err(Error::BadSheet);
    }
    put_list(n, begins, ends, out)
}

// The same of a coverage by value.
pub fn canonical(coverage: Coverage, out: &mut [u8]) -> Result<usize, Error>
    ensures { output (told_value result) out.new ≡ written (canonical_kept coverage) out.old }
{
    let begins = coverage.begins;
    let ends = coverage.ends;
    canonical_of(coverage.n, &begins, &ends, out)
}
