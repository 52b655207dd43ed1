// The canonical list of a range list or a location list in one call. No coverage is made by value.
ghost use Rattle.std.specs.Prelude.{◌≡◌, ◌-◌};
ghost use Rattle.section_bytes.specs.Common.{is_split};
ghost use Rattle.section_bytes.specs.Error.{told_value};
ghost use Rattle.section_bytes.specs.Read.{gives, and_then};
ghost use Rattle.canonical.specs.Canonical.{canonical_bytes, canonical_of};
ghost use Rattle.coverage.specs.Ranges.{limit};
ghost use Rattle.coverage.specs.Kept.{firsts};
ghost use Rattle.coverage.specs.Gathered.{short, coverage_within, or_too_many};
ghost use Rattle.coverage.specs.Covered.{range_list, range_list_by, location_list, source, source_as};
ghost use Rattle.coverage.specs.Output.{output, written};

use coverage::collect::{Gathered, cover_long_as, cover_short_as};
use coverage::{LIMIT, SHORT, Source};
use lists::Unit;
use section_bytes::common::{DwarfFileType, LocationListsOffset, RangeListsOffset};
use section_bytes::error::Error;

// The canonical list of a list that yields more ranges than short arrays have room for: of the ranges there, and those of the list
// that is left. It calls itself once, so that it stays a call: its arrays would else be made room for in every call.
fn canonical_long(
    again: bool,
    source: &Source,
    locations: bool,
    by_table: bool,
    first_begins: &[u64; SHORT],
    first_ends: &[u64; SHORT],
    out: &mut [u8],
) -> Result<usize, Error>
    ensures { output (told_value result) out.new ≡ written (and_then (or_too_many (coverage_within (firsts short first_begins.now first_ends.now) (limit - short) (source_as locations by_table source.now))) (λ rs. gives (canonical_bytes rs))) out.old }
{
    if again {
        return canonical_long(
            false,
            source,
            locations,
            by_table,
            first_begins,
            first_ends,
            out,
        );
    }
    let mut begins = [0u64; LIMIT];
    let mut ends = [0u64; LIMIT];
    match cover_long_as(
        source,
        locations,
        by_table,
        first_begins,
        first_ends,
        &mut begins,
        &mut ends,
    )? {
        Gathered::All(n) => super::put_list(n, &begins, &ends, out),
        Gathered::Full(_) => Err(Error::TooManyRanges),
    }
}

// The canonical list of a list, which holds what two words say, its coverage made in short arrays first.
fn canonical_list(
    source: &Source,
    locations: bool,
    by_table: bool,
    out: &mut [u8],
) -> Result<usize, Error>
    ensures { output (told_value result) out.new ≡ written (canonical_of (source_as locations by_table source.now)) out.old }
{
    let mut begins = [0u64; SHORT];
    let mut ends = [0u64; SHORT];
    match cover_short_as(source, locations, by_table, &mut begins, &mut ends)? {
        Gathered::All(n) => super::put_list(n, &begins, &ends, out),
        Gathered::Full(walk) => {
            let rest = source.from_walk(walk);
            canonical_long(true, &rest, locations, by_table, &begins, &ends, out)
        }
    }
}

// The canonical list of the range list at an offset, and how many bytes it has: the refusals of its coverage, then 11.
pub fn canonical_ranges<'a>(
    section: &'a [u8],
    unit: &Unit<'a>,
    offset: RangeListsOffset,
    base_address: u64,
    out: &mut [u8],
) -> Result<usize, Error>
    ensures { let u = unit.now in output (told_value result) out.new ≡ written (canonical_of (source range_list u.encoding u.endian section.now offset.0 base_address u.debug_addr.now u.debug_addr_base)) out.old }
{
    let source = Source::ranges(section, unit, None, offset, base_address);
    canonical_list(&source, false, false, out)
}

// The same by a table of kind numbers, which bare pairs have no use for. The list that is written has DWARF's.
pub fn canonical_ranges_by(
    section: &[u8],
    unit: &Unit,
    offset: RangeListsOffset,
    base_address: u64,
    kinds: &[u8],
    out: &mut [u8],
) -> Result<usize, Error>
    ensures { let u = unit.now in output (told_value result) out.new ≡ written (canonical_of (source (range_list_by kinds.now) u.encoding u.endian section.now offset.0 base_address u.debug_addr.now u.debug_addr_base)) out.old }
{
    let source = Source::ranges(section, unit, Some(kinds), offset, base_address);
    canonical_list(&source, false, true, out)
}

// The canonical list of the location list at an offset, plain or split: the refusals of its coverage, then 11.
pub fn canonical_locations(
    section: &[u8],
    unit: &Unit,
    offset: LocationListsOffset,
    base_address: u64,
    file_type: DwarfFileType,
    out: &mut [u8],
) -> Result<usize, Error>
    ensures { let u = unit.now in output (told_value result) out.new ≡ written (canonical_of (source (location_list (is_split file_type)) u.encoding u.endian section.now offset.0 base_address u.debug_addr.now u.debug_addr_base)) out.old }
{
    let source = Source::locations(section, unit, file_type, offset, base_address);
    canonical_list(&source, true, false, out)
}
