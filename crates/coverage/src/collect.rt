// The ranges of a list gathered, and the coverage that they make.
ghost use Rattle.std.specs.Prelude.{◌≡◌, ◌-◌, ◌≤◌, true, [], length};
ghost use Rattle.section_bytes.specs.declared.common.Format.TheVariants.{Dwarf32};
ghost use Rattle.section_bytes.specs.Common.{is_split};
ghost use Rattle.section_bytes.specs.Reader.{is_size};
ghost use Rattle.entries.specs.Lists.{are_locations, coding_in};
ghost use Rattle.lists.specs.Convert.{table_in};
ghost use Rattle.lists.specs.Walk.{trace, listed};
ghost use Rattle.coverage.specs.Ranges.{limit};
ghost use Rattle.coverage.specs.Covered.{range_list, range_list_by, location_list, holding, has_table, holding_as, source, source_in, source_as, coverage_of, read_back};
ghost use Rattle.coverage.specs.Told.{made, told_made};
ghost use Rattle.coverage.specs.Sorted.{Sized};
ghost use Rattle.coverage.specs.Kept.{firsts};
ghost use Rattle.coverage.specs.Gathered.{short, Stored, in_front, within, coverage_within, told_gathered};

use super::place::{place_canonical, place_locations, place_ranges, place_ranges_by};
use super::{Coverage, LIMIT, SHORT, Source};
use entries::Lists;
use lists::{Range, Unit, Walk};
use section_bytes::common::{DwarfFileType, LocationListsOffset, RangeListsOffset};
use section_bytes::error::Error;

// What was gathered at the front of two arrays: so many ranges; or there is no room for the one that comes next from a walk.
#[derive(Clone, Copy)]
pub enum Gathered {
    All(usize),
    Full(Walk),
}

// A range stored behind n others, if there is room for it.
fn store(range: Range, n: usize, begins: &mut [u64], ends: &mut [u64]) -> bool
    requires { Sized (length begins.old) begins.old ends.old }
    ensures { Stored result (range.begin, range.end) n begins.old ends.old begins.new ends.new }
{
    if begins.len() <= n {
        return false;
    }
    begins[n] = range.begin;
    ends[n] = range.end;
    true
}

// The ranges that a list yields, behind those that stand at the front of the two arrays already.
fn gather(
    section: &[u8],
    unit: &Unit,
    lists: &Lists,
    start: Walk,
    done: usize,
    begins: &mut [u64],
    ends: &mut [u64],
) -> Result<Gathered, Error>
    requires address_size_value { is_size unit.now.encoding.address_size ≡ true }
    requires done_in_bounds { (done ≤ length begins.old) × (length begins.old ≤ limit) × Sized (length begins.old) begins.old ends.old }
    ensures ends_after { let u = unit.now in told_gathered result begins.new ends.new ≡ in_front (firsts done begins.old ends.old) (within (length begins.old - done) start (trace (listed (are_locations lists.now) (coding_in lists.now) u.encoding u.endian section.now) (table_in u) u.encoding.address_size (length section.now) start)) }
    ensures sized { Sized (length begins.old) begins.new ends.new }
{
    let mut walk = start;
    let mut n = done;
    loop {
        let (answer, after) = lists::listed::next(section, unit, lists, walk);
        let Some(location) = answer? else {
            return Ok(Gathered::All(n));
        };
        if !store(location.range, n, begins, ends) {
            // Nobody asks for its count, so that the loop keeps none.
            return Ok(Gathered::Full(Walk {
                at: walk.at,
                base_address: walk.base_address,
                entries: 0,
            }));
        }
        n += 1;
        walk = after;
    }
}

// The lists that two words say, with the table or the file type of the source's own. Where the words are known when the code is
// compiled, so is which lists are read, and the loop over the entries has nothing of the others; a source stands in memory, through
// which that isn't seen.
fn lists_as<'a>(locations: bool, by_table: bool, source: &Source<'a>) -> Lists<'a>
    ensures { holding result ≡ holding_as locations by_table source.now.lists }
{
    if locations {
        return match source.lists {
            Lists::Locations(file_type) => Lists::Locations(file_type),
            Lists::Ranges(_) => Lists::Locations(DwarfFileType::Main),
        };
    }
    if by_table {
        return match source.lists {
            Lists::Ranges(Some(kinds)) => Lists::Ranges(Some(kinds)),
            Lists::Ranges(None) => Lists::Ranges(Some(&source.section[..0])),
            Lists::Locations(_) => Lists::Ranges(Some(&source.section[..0])),
        };
    }
    Lists::Ranges(None)
}

// The coverage of the ranges that stand at the front of two arrays and of a list, which holds what two words say, with room for as many
// ranges as the arrays have places.
fn cover_listed(
    source: &Source,
    locations: bool,
    by_table: bool,
    done: usize,
    begins: &mut [u64],
    ends: &mut [u64],
) -> Result<Gathered, Error>
    requires { (done ≤ length begins.old) × (length begins.old ≤ limit) × Sized (length begins.old) begins.old ends.old }
    ensures ends_after { told_gathered result begins.new ends.new ≡ coverage_within (firsts done begins.old ends.old) (length begins.old - done) (source_as locations by_table source.now) }
    ensures sized { Sized (length begins.old) begins.new ends.new }
{
    let lists = lists_as(locations, by_table, source);
    // Copied, so that the loop over the entries has it in registers: without that it takes half as many instructions more.
    let section = source.section;
    let unit = source.unit;
    // Both lists open alike.
    let start = lists::rnglists::ranges(
        section,
        RangeListsOffset(source.offset.0),
        unit.encoding,
        source.base_address,
    )?;
    match gather(section, &unit, &lists, start, done, begins, ends)? {
        Gathered::All(n) => Ok(Gathered::All(super::sort::to_runs(begins, ends, n))),
        Gathered::Full(walk) => Ok(Gathered::Full(walk)),
    }
}

// The same, by a call. In there the compiler learns which list is read, and around it it looks at the calls that are left once more: a
// bare pair is then read in the loop. Without that it takes a third to a half more instructions, and a base address twice as many.
fn cover(
    source: &Source,
    locations: bool,
    by_table: bool,
    done: usize,
    begins: &mut [u64],
    ends: &mut [u64],
) -> Result<Gathered, Error>
    requires { (done ≤ length begins.old) × (length begins.old ≤ limit) × Sized (length begins.old) begins.old ends.old }
    ensures ends_after { told_gathered result begins.new ends.new ≡ coverage_within (firsts done begins.old ends.old) (length begins.old - done) (source_as locations by_table source.now) }
    ensures sized { Sized (length begins.old) begins.new ends.new }
{
    cover_listed(source, locations, by_table, done, begins, ends)
}

// The coverage of a list, which holds what two words say. The arrays are lent for work: what they held is not read, and what stands
// behind the count, or of a list that is refused, has no meaning.
pub fn cover_short_as(
    source: &Source,
    locations: bool,
    by_table: bool,
    begins: &mut [u64; SHORT],
    ends: &mut [u64; SHORT],
) -> Result<Gathered, Error>
    ensures ends_after { told_gathered result begins.new ends.new ≡ coverage_within [] short (source_as locations by_table source.now) }
    ensures sized { Sized short begins.new ends.new }
{
    cover(source, locations, by_table, 0, begins, ends)
}

// The same of a list that goes on behind the first ranges of short arrays that were full. The long arrays are lent for work, as the
// short ones are.
pub fn cover_long_as(
    source: &Source,
    locations: bool,
    by_table: bool,
    first_begins: &[u64; SHORT],
    first_ends: &[u64; SHORT],
    begins: &mut [u64; LIMIT],
    ends: &mut [u64; LIMIT],
) -> Result<Gathered, Error>
    ensures ends_after { told_gathered result begins.new ends.new ≡ coverage_within (firsts short first_begins.now first_ends.now) (limit - short) (source_as locations by_table source.now) }
    ensures sized { Sized limit begins.new ends.new }
{
    super::sort::copy(&mut begins[..SHORT], first_begins);
    super::sort::copy(&mut ends[..SHORT], first_ends);
    cover(source, locations, by_table, SHORT, begins, ends)
}

// The two words for lists: whether they hold locations, and whether a table belongs to them.
fn words_of(lists: &Lists) -> (bool, bool)
    ensures { (result.0 ≡ are_locations lists.now) × (result.1 ≡ has_table lists.now) }
{
    match *lists {
        Lists::Locations(_) => (true, false),
        Lists::Ranges(Some(_)) => (false, true),
        Lists::Ranges(None) => (false, false),
    }
}

// The coverage of a list, as the source's own lists say what it holds.
pub fn cover_short(
    source: &Source,
    begins: &mut [u64; SHORT],
    ends: &mut [u64; SHORT],
) -> Result<Gathered, Error>
    ensures ends_after { told_gathered result begins.new ends.new ≡ coverage_within [] short (source_in source.now) }
    ensures sized { Sized short begins.new ends.new }
{
    let (locations, by_table) = words_of(&source.lists);
    cover_short_as(source, locations, by_table, begins, ends)
}

// The same of a list that goes on behind the first ranges of short arrays that were full.
pub fn cover_long(
    source: &Source,
    first_begins: &[u64; SHORT],
    first_ends: &[u64; SHORT],
    begins: &mut [u64; LIMIT],
    ends: &mut [u64; LIMIT],
) -> Result<Gathered, Error>
    ensures ends_after { told_gathered result begins.new ends.new ≡ coverage_within (firsts short first_begins.now first_ends.now) (limit - short) (source_in source.now) }
    ensures sized { Sized limit begins.new ends.new }
{
    let (locations, by_table) = words_of(&source.lists);
    cover_long_as(
        source,
        locations,
        by_table,
        first_begins,
        first_ends,
        begins,
        ends,
    )
}

// The coverage of the range list at an offset: the refusals of opening, then the first of a walk's refusal and 10.
#[tactic(auto, using(crate::proofs::PlaceLaws::making))]
pub fn range_coverage(
    section: &[u8],
    unit: &Unit,
    offset: RangeListsOffset,
    base_address: u64,
) -> Result<Coverage, Error>
    ensures { let u = unit.now in told_made result ≡ made (coverage_of (source range_list u.encoding u.endian section.now offset.0 base_address u.debug_addr.now u.debug_addr_base)) }
{
    let mut begins = [0u64; LIMIT];
    let mut ends = [0u64; LIMIT];
    let n = place_ranges(section, unit, offset, base_address, &mut begins, &mut ends)?;
    Ok(Coverage { n, begins, ends })
}

// The same by a table of kind numbers, which bare pairs have no use for.
#[tactic(auto, using(crate::proofs::PlaceLaws::making))]
pub fn range_coverage_by(
    section: &[u8],
    unit: &Unit,
    offset: RangeListsOffset,
    base_address: u64,
    kinds: &[u8],
) -> Result<Coverage, Error>
    ensures { let u = unit.now in told_made result ≡ made (coverage_of (source (range_list_by kinds.now) u.encoding u.endian section.now offset.0 base_address u.debug_addr.now u.debug_addr_base)) }
{
    let mut begins = [0u64; LIMIT];
    let mut ends = [0u64; LIMIT];
    let n = place_ranges_by(
        section,
        unit,
        offset,
        base_address,
        kinds,
        &mut begins,
        &mut ends,
    )?;
    Ok(Coverage { n, begins, ends })
}

// The coverage of the location list at an offset, plain or split: the refusals of opening, then the first of a walk's refusal
// and 10.
#[tactic(auto, using(crate::proofs::PlaceLaws::making))]
pub fn location_coverage(
    section: &[u8],
    unit: &Unit,
    offset: LocationListsOffset,
    base_address: u64,
    file_type: DwarfFileType,
) -> Result<Coverage, Error>
    ensures { let u = unit.now in told_made result ≡ made (coverage_of (source (location_list (is_split file_type)) u.encoding u.endian section.now offset.0 base_address u.debug_addr.now u.debug_addr_base)) }
{
    let mut begins = [0u64; LIMIT];
    let mut ends = [0u64; LIMIT];
    let n = place_locations(
        section,
        unit,
        offset,
        base_address,
        file_type,
        &mut begins,
        &mut ends,
    )?;
    Ok(Coverage { n, begins, ends })
}

// The coverage that a canonical list tells, walked as a section of its own; of any other little-endian DWARF 5 range list with
// addresses of 8 bytes, its coverage or its refusals.
#[tactic(auto, using(crate::proofs::PlaceLaws::making))]
pub fn from_canonical(bytes: &[u8]) -> Result<Coverage, Error>
    ensures { told_made result ≡ made (coverage_of (read_back Dwarf32 bytes.now 0 [] (record { 0 = 0 }))) }
{
    let mut begins = [0u64; LIMIT];
    let mut ends = [0u64; LIMIT];
    let n = place_canonical(bytes, &mut begins, &mut ends)?;
    Ok(Coverage { n, begins, ends })
}

// The coverage of an answer; in place of a refused one the empty coverage.
pub fn or_empty(answer: Result<Coverage, Error>) -> Coverage
    ensures { result ≡ (told_made answer).coverage }
{
    match answer {
        Ok(coverage) => coverage,
        Err(_) => Coverage {
            n: 0,
            begins: [0; LIMIT],
            ends: [0; LIMIT],
        },
    }
}
