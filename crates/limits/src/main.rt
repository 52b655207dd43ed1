// The limit of ranges: refusals 10, 11 and 12, each beside the nearest input that is not refused.
#![tactic(auto)]

ghost use Rattle.std.specs.Prelude.{◌≤◌};

use coverage::LIMIT;
use lists::Unit;
use section_bytes::common::{DebugAddrBase, Encoding, Format, RangeListsOffset};
use section_bytes::endianity::RunTimeEndian;
use section_bytes::error::Error;
use sheets::{HEAD, RANGE};
use std::io;

// One range more than a list may yield.
const RANGES: usize = LIMIT + 1;
// So many entries of six bytes, and the end mark.
const LENGTH: usize = 6 * RANGES + 1;
// The canonical list of as many ranges as a coverage keeps, each of one byte.
const CANONICAL: usize = 10 * LIMIT + 1;
// The sheet of as many ranges.
const SHEET: usize = HEAD + RANGE * LIMIT;

// How many ranges or bytes a call made, or its refusal.
fn print_count(rt: &impl Print, what: &str, made: Result<usize, Error>) -> io::Result<()> {
    match made {
        Ok(n) => println!(rt; "{what} {n}"),
        Err(e) => println!(rt; "refused {}", e.number()),
    }
}

fn print_places(rt: &impl Print, begin: u64, end: u64) -> io::Result<()> {
    println!(rt; "{begin:02x} {end:02x}")
}

// No entry here names an address by index.
fn unit() -> Unit<'static> {
    Unit {
        encoding: Encoding {
            address_size: 4,
            format: Format::Dwarf32,
            version: 5,
        },
        endian: RunTimeEndian::Little,
        debug_addr: b"",
        debug_addr_base: DebugAddrBase(0),
    }
}

// Entries of kind 7 and of one byte, one after the other: the first begins at `first`, and each other `step` behind the one
// before.
fn fill(list: &mut [u8; LENGTH], first: usize, step: usize)
    requires { (first ≤ 16) × (step ≤ 2) }
{
    let mut begin = first;
    for i in 0..RANGES {
        list[6 * i] = 7;
        list[6 * i + 1] = (begin % 256) as u8;
        list[6 * i + 2] = (begin / 256) as u8;
        list[6 * i + 5] = 1;
        begin += step;
    }
}

fn coverage_at(rt: &impl Print, list: &[u8; LENGTH], offset: u64) -> io::Result<()> {
    let made = coverage::collect::range_coverage(list, &unit(), RangeListsOffset(offset), 0);
    print_count(rt, "ranges", made.map(|coverage| coverage.n))
}

fn runs_at(
    rt: &impl Print,
    list: &[u8; LENGTH],
    offset: u64,
    begins: &mut [u64],
    ends: &mut [u64],
) -> io::Result<()> {
    let offset = RangeListsOffset(offset);
    let made = coverage::place::runs_of_ranges(list, &unit(), offset, 0, begins, ends);
    print_count(rt, "ranges", made)
}

fn canonical_into(rt: &impl Print, list: &[u8], out: &mut [u8]) -> io::Result<()> {
    let made = canonical::of_list::canonical_ranges(list, &unit(), RangeListsOffset(0), 0, out);
    print_count(rt, "bytes", made)
}

fn told_by(rt: &impl Print, bytes: &[u8; CANONICAL]) -> io::Result<()> {
    let made = coverage::collect::from_canonical(bytes);
    print_count(rt, "ranges", made.map(|coverage| coverage.n))
}

// The one run of as many ranges as the limit, in no place, one and two.
fn few_places(rt: &impl Print, list: &[u8; LENGTH]) -> io::Result<()> {
    runs_at(rt, list, 6, &mut [], &mut [])?;
    let mut begin = [0xffu64; 1];
    let mut end = [0xffu64; 1];
    runs_at(rt, list, 6, &mut begin, &mut end)?;
    print_places(rt, begin[0], end[0])?;
    let mut begins = [0xffu64; 2];
    let mut ends = [0xffu64; 2];
    runs_at(rt, list, 6, &mut begins, &mut ends)?;
    for (begin, end) in begins.iter().zip(&ends) {
        print_places(rt, *begin, *end)?;
    }
    Ok(())
}

// The canonical list of as many ranges as the limit, and the coverage that it tells.
fn there_and_back(rt: &impl Print, list: &[u8; LENGTH]) -> io::Result<()> {
    let mut short = [0u8; CANONICAL - 1];
    canonical_into(rt, list, &mut short)?;
    let mut out = [0u8; CANONICAL];
    canonical_into(rt, list, &mut out)?;
    told_by(rt, &out)
}

// Canonical list and sheet of a list's runs, which count as many as the limit, and one more: refused before there is no room.
fn counted(rt: &impl Print, list: &[u8; LENGTH]) -> io::Result<()> {
    let mut begins = [0u64; LIMIT];
    let mut ends = [0u64; LIMIT];
    runs_at(rt, list, 0, &mut begins, &mut ends)?;
    let mut out = [0u8; CANONICAL];
    let made = canonical::canonical_of(LIMIT, &begins, &ends, &mut out);
    print_count(rt, "bytes", made)?;
    let mut sheet = [0u8; SHEET];
    let made = sheets::sheet_of(LIMIT, &begins, &ends, &mut sheet);
    print_count(rt, "bytes", made)?;
    let made = canonical::canonical_of(RANGES, &begins, &ends, &mut []);
    print_count(rt, "bytes", made)?;
    let made = sheets::sheet_of(RANGES, &begins, &ends, &mut []);
    print_count(rt, "bytes", made)
}

fn main(rt: HostRuntime) -> io::Result<()> {
    let end = [0u8; 1];
    canonical_into(&rt, &end, &mut [])?;
    canonical_into(&rt, &end, &mut [0u8; 1])?;
    let mut list = [0u8; LENGTH];
    // One range more than the limit, and as many: all of them 0x10 to 0x11.
    fill(&mut list, 0x10, 0);
    coverage_at(&rt, &list, 0)?;
    coverage_at(&rt, &list, 6)?;
    few_places(&rt, &list)?;
    // An unknown kind for the end mark: the first of two refusals, and this one.
    list[LENGTH - 1] = 8;
    coverage_at(&rt, &list, 0)?;
    coverage_at(&rt, &list, 6)?;
    // One range more than the limit, and as many, 2i to 2i + 1.
    fill(&mut list, 0, 2);
    coverage_at(&rt, &list, 0)?;
    list[6 * LIMIT] = 0;
    coverage_at(&rt, &list, 0)?;
    there_and_back(&rt, &list)?;
    counted(&rt, &list)
}
