// Sheets: a coverage written into lent bytes, and read from them.
#![tactic(auto)]

ghost use Rattle.std.specs.Prelude.{◌≡◌, ◌+◌, ◌*◌, ◌≤◌, length, take, drop};
ghost use Rattle.std.proofs.lemmas.List.Edits.{sets};
ghost use Rattle.section_bytes.specs.Endianity.{little};
ghost use Rattle.coverage.specs.Ranges.{limit};
ghost use Rattle.coverage.specs.Kept.{counted, firsts, padded, lawful_from};
ghost use Rattle.coverage.specs.Sorted.{AtLeast};
ghost use Rattle.sheets.specs.Sheet.{address_bytes, sheet_bytes, sheet_length, sheet_kept, addresses_in, ranges_in, sheet_ranges};
ghost use Rattle.coverage.specs.Output.{output, written};
ghost use Rattle.coverage.specs.Told.{told_made, made, placed, placing};
ghost use Rattle.section_bytes.specs.Error.{told_value};
ghost use Rattle.sheets.specs.Judged.{Judged};

use coverage::lawful::is_lawful;
use coverage::{Coverage, LIMIT};
use section_bytes::endianity::RunTimeEndian;
use section_bytes::error::Error;
use section_bytes::put::put_u64;
use section_bytes::reader::{read_u16, read_u64};

// How many bytes of a sheet stand before its addresses, and how many it has for each range.
pub const HEAD: usize = 4;

pub const RANGE: usize = 16;

// The first n addresses, eight bytes each, from a place on.
fn put_addresses(out: &mut [u8], at: usize, n: usize, addresses: &[u64])
    requires { (n ≤ length addresses.now) × (at + 8 * n ≤ length out.old) }
    ensures { out.new ≡ sets out.old at (address_bytes (take n addresses.now)) }
{
    let mut i: usize = 0;
    let mut p = at;
    while i < n {
        put_u64(out, p, addresses[i]);
        p += 8;
        i += 1;
    }
}

// The sheet of the first n ranges, from the output's begin on.
fn write(n: usize, begins: &[u64], ends: &[u64], out: &mut [u8])
    requires { AtLeast n begins.now ends.now × (sheet_length n ≤ length out.old) }
    ensures { out.new ≡ sets out.old 0 (sheet_bytes (firsts n begins.now ends.now)) }
{
    out[0] = (n % 256) as u8;
    out[1] = (n / 256 % 256) as u8;
    out[2] = 8;
    out[3] = 0;
    put_addresses(out, HEAD, n, begins);
    put_addresses(out, HEAD + 8 * n, n, ends);
}

// Whether a coverage of n ranges makes a lawful sheet (else 12), and there is room for it (else 11).
fn judge(lawful: bool, n: usize, room: usize) -> Result<(), Error>
    ensures { Judged lawful n room result }
{
    if !lawful {
        return Err(Error::BadSheet);
    }
    if room < HEAD {
        return Err(Error::NoSpace);
    }
    if (room - HEAD) / RANGE < n {
        return Err(Error::NoSpace);
    }
    Ok(())
}

// The sheet of a coverage in two arrays, and how many bytes it has: 12 where it makes no lawful sheet, then 11.
pub fn sheet_of(
    n: usize,
    begins: &[u64; LIMIT],
    ends: &[u64; LIMIT],
    out: &mut [u8],
) -> Result<usize, Error>
    ensures { output (told_value result) out.new ≡ written (sheet_kept (counted n begins.now ends.now)) out.old }
{
    // A slice made of an array is known to be as long as the array.
    let bs: &[u64] = begins;
    let es: &[u64] = ends;
    judge(is_lawful(n, begins, ends), n, out.len())?;
    write(n, bs, es, out);
    Ok(HEAD + RANGE * n)
}

// The same of a coverage by value.
pub fn sheet(coverage: Coverage, out: &mut [u8]) -> Result<usize, Error>
    ensures { output (told_value result) out.new ≡ written (sheet_kept coverage) out.old }
{
    let begins = coverage.begins;
    let ends = coverage.ends;
    sheet_of(coverage.n, &begins, &ends, out)
}

// The number of two bytes at a place.
#[tactic(auto, using(section_bytes::proofs::ReaderLaws::uint_got))]
fn half_word(bytes: &[u8], at: usize) -> u64
    requires { at + 2 ≤ length bytes.now }
    ensures { result ≡ little (take 2 (drop at bytes.now)) }
{
    let Ok((x, _)) = read_u16(bytes, at, RunTimeEndian::Little) else {
        return 0;
    };
    x
}

// The number of eight bytes at a place.
#[tactic(auto, using(section_bytes::proofs::ReaderLaws::uint_got))]
fn address(bytes: &[u8], at: usize) -> u64
    requires { at + 8 ≤ length bytes.now }
    ensures { result ≡ little (take 8 (drop at bytes.now)) }
{
    let Ok((x, _)) = read_u64(bytes, at, RunTimeEndian::Little) else {
        return 0;
    };
    x
}

// Whether the ranges of a sheet that counts n ascend and keep apart, and each begin lies below its end and below the tombstone
// bound of 64 bits: tested where they stand, so that nothing is written before the sheet is known to be one.
fn lawful_in(bytes: &[u8], n: usize) -> bool
    requires { (n ≤ limit) × (length bytes.now ≡ sheet_length n) }
    ensures { result ≡ lawful_from 0 (ranges_in n bytes.now) }
{
    let bound = section_bytes::address::min_tombstone(8);
    let ends = HEAD + 8 * n;
    let mut i: usize = 0;
    let mut last: u64 = 0;
    while i < n {
        let begin = address(bytes, HEAD + 8 * i);
        let end = address(bytes, ends + 8 * i);
        if 0 < i {
            if begin <= last {
                return false;
            }
        }
        if end <= begin {
            return false;
        }
        if bound <= begin {
            return false;
        }
        last = end;
        i += 1;
    }
    true
}

// The n addresses from a place on, and 0 past them.
fn get_addresses(bytes: &[u8], at: usize, n: usize, to: &mut [u64; LIMIT])
    requires { (n ≤ limit) × (at + 8 * n ≤ length bytes.now) }
    ensures { to.new ≡ padded (addresses_in n (drop at bytes.now)) }
{
    *to = [0u64; LIMIT];
    let mut i: usize = 0;
    let mut p = at;
    while i < n {
        to[i] = address(bytes, p);
        p += 8;
        i += 1;
    }
}

// The coverage of a sheet, put into two arrays that a caller lends, and how many ranges it has: 12 where the bytes are none.
pub fn place_sheet(
    bytes: &[u8],
    begins: &mut [u64; LIMIT],
    ends: &mut [u64; LIMIT],
) -> Result<usize, Error>
    ensures { placed (told_value result) begins.new ends.new ≡ placing (sheet_ranges bytes.now) begins.old ends.old }
{
    let len = bytes.len();
    if len < HEAD {
        return Err(Error::BadSheet);
    }
    let n = half_word(bytes, 0) as usize;
    if LIMIT < n {
        return Err(Error::BadSheet);
    }
    if half_word(bytes, 2) != 8 {
        return Err(Error::BadSheet);
    }
    if len != HEAD + RANGE * n {
        return Err(Error::BadSheet);
    }
    if !lawful_in(bytes, n) {
        return Err(Error::BadSheet);
    }
    get_addresses(bytes, HEAD, n, begins);
    get_addresses(bytes, HEAD + 8 * n, n, ends);
    Ok(n)
}

// The same by value.
#[tactic(auto, using(coverage::proofs::PlaceLaws::making))]
pub fn from_sheet(bytes: &[u8]) -> Result<Coverage, Error>
    ensures { told_made result ≡ made (sheet_ranges bytes.now) }
{
    let mut begins = [0u64; LIMIT];
    let mut ends = [0u64; LIMIT];
    let n = place_sheet(bytes, &mut begins, &mut ends)?;
    Ok(Coverage { n, begins, ends })
}
