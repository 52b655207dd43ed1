// A coverage put into what a caller lends: its ranges at the front of two slices, whatever their length, the other places as
// they were; or two arrays of as many places as it may keep ranges, written whole, 0 past the count. A refusal leaves them as
// they were.
ghost use Rattle.std.specs.Prelude.{◌≡◌, ◌-◌, ◌≤◌, true, false, [], length, take};
ghost use Rattle.section_bytes.specs.Common.{is_split};
ghost use Rattle.section_bytes.specs.Error.{told_value};
ghost use Rattle.section_bytes.specs.Read.{gives};
ghost use Rattle.section_bytes.specs.declared.common.Format.TheVariants.{Dwarf32};
ghost use Rattle.coverage.specs.Ranges.{limit};
ghost use Rattle.coverage.specs.Covered.{range_list, range_list_by, location_list, is_tabled, ranges_held, source, source_in, source_as, coverage_of, read_back};
ghost use Rattle.coverage.specs.Kept.{firsts, padded};
ghost use Rattle.coverage.specs.Gathered.{short, coverage_within, or_too_many, list_from};
ghost use Rattle.coverage.specs.Sorted.{AtLeast};
ghost use Rattle.coverage.specs.Told.{placed, placing, putting};

use super::collect::{Gathered, cover_long_as, cover_short_as};
use super::{LIMIT, ListsOffset, SHORT, Source};
use entries::Lists;
use lists::{Unit, Walk};
use section_bytes::common::{
    DebugAddrBase, DwarfFileType, Encoding, Format, LocationListsOffset, RangeListsOffset,
};
use section_bytes::endianity::RunTimeEndian;
use section_bytes::error::Error;

impl<'a> Source<'a> {
    // The range list at an offset, with the kind numbers of DWARF or of a table.
    pub fn ranges(
        section: &'a [u8],
        unit: &Unit<'a>,
        kinds: Option<&'a [u8]>,
        offset: RangeListsOffset,
        base_address: u64,
    ) -> Source<'a>
        ensures itself { let u = unit.now in source_in result ≡ source (ranges_held kinds.entry) u.encoding u.endian section.now offset.0 base_address u.debug_addr.now u.debug_addr_base }
        ensures by_words { let u = unit.now in source_as false (is_tabled kinds.entry) result ≡ source (ranges_held kinds.entry) u.encoding u.endian section.now offset.0 base_address u.debug_addr.now u.debug_addr_base }
    {
        Source {
            section,
            unit: *unit,
            lists: Lists::Ranges(kinds),
            offset: ListsOffset(offset.0),
            base_address,
        }
    }

    // The location list at an offset, plain or split.
    pub fn locations(
        section: &'a [u8],
        unit: &Unit<'a>,
        file_type: DwarfFileType,
        offset: LocationListsOffset,
        base_address: u64,
    ) -> Source<'a>
        ensures itself { let u = unit.now in source_in result ≡ source (location_list (is_split file_type)) u.encoding u.endian section.now offset.0 base_address u.debug_addr.now u.debug_addr_base }
        ensures by_words { let u = unit.now in source_as true false result ≡ source (location_list (is_split file_type)) u.encoding u.endian section.now offset.0 base_address u.debug_addr.now u.debug_addr_base }
    {
        Source {
            section,
            unit: *unit,
            lists: Lists::Locations(file_type),
            offset: ListsOffset(offset.0),
            base_address,
        }
    }

    // What comes from a walk on: a list that begins there.
    pub fn from_walk(&self, walk: Walk) -> Source<'a>
        ensures itself { source_in result ≡ list_from (source_in self.now) walk }
        ensures lists { result.lists ≡ self.now.lists }
    {
        Source {
            section: self.section,
            unit: self.unit,
            lists: self.lists,
            offset: ListsOffset(walk.at as u64),
            base_address: walk.base_address,
        }
    }
}

// The first n ranges, put at the front of what a caller lends; where that is shorter, 11.
#[tactic(auto, using(crate::proofs::PlaceLaws::front_short, crate::proofs::PlaceLaws::front_short_ends))]
fn put_front(
    n: usize,
    bs: &[u64],
    es: &[u64],
    begins: &mut [u64],
    ends: &mut [u64],
) -> Result<usize, Error>
    requires { AtLeast n bs.now es.now }
    ensures { placed (told_value result) begins.new ends.new ≡ putting (gives (firsts n bs.now es.now)) begins.old ends.old }
{
    if begins.len() < n {
        return Err(Error::NoSpace);
    }
    if ends.len() < n {
        return Err(Error::NoSpace);
    }
    super::sort::copy(&mut begins[..n], &bs[..n]);
    super::sort::copy(&mut ends[..n], &es[..n]);
    Ok(n)
}

// The runs of a list that yields more ranges than short arrays have room for: the ranges there, and those of the list that is left.
// It calls itself once, so that it stays a call: its arrays would else be made room for wherever a list is covered.
fn runs_long(
    again: bool,
    source: &Source,
    locations: bool,
    by_table: bool,
    first_begins: &[u64; SHORT],
    first_ends: &[u64; SHORT],
    begins: &mut [u64],
    ends: &mut [u64],
) -> Result<usize, Error>
    ensures { placed (told_value result) begins.new ends.new ≡ putting (or_too_many (coverage_within (firsts short first_begins.now first_ends.now) (limit - short) (source_as locations by_table source.now))) begins.old ends.old }
{
    if again {
        return runs_long(
            false,
            source,
            locations,
            by_table,
            first_begins,
            first_ends,
            begins,
            ends,
        );
    }
    let mut bs = [0u64; LIMIT];
    let mut es = [0u64; LIMIT];
    match cover_long_as(
        source,
        locations,
        by_table,
        first_begins,
        first_ends,
        &mut bs,
        &mut es,
    )? {
        Gathered::All(n) => put_front(n, &bs, &es, begins, ends),
        Gathered::Full(_) => Err(Error::TooManyRanges),
    }
}

// The runs of a list, which holds what two words say, gathered in short arrays first.
fn runs_list(
    source: &Source,
    locations: bool,
    by_table: bool,
    begins: &mut [u64],
    ends: &mut [u64],
) -> Result<usize, Error>
    ensures { placed (told_value result) begins.new ends.new ≡ putting (coverage_of (source_as locations by_table source.now)) begins.old ends.old }
{
    let mut bs = [0u64; SHORT];
    let mut es = [0u64; SHORT];
    match cover_short_as(source, locations, by_table, &mut bs, &mut es)? {
        Gathered::All(n) => put_front(n, &bs, &es, begins, ends),
        Gathered::Full(walk) => {
            let rest = source.from_walk(walk);
            runs_long(true, &rest, locations, by_table, &bs, &es, begins, ends)
        }
    }
}

// 0 at the places past the first n.
fn clear_past(n: usize, to: &mut [u64])
    requires { (n ≤ limit) × (length to.old ≡ limit) }
    ensures { to.new ≡ padded (take n to.old) }
{
    let mut i = n;
    while i < LIMIT {
        to[i] = 0;
        i += 1;
    }
}

// The coverage of a list, which holds what two words say, in two arrays written whole.
fn place_list(
    source: &Source,
    locations: bool,
    by_table: bool,
    begins: &mut [u64; LIMIT],
    ends: &mut [u64; LIMIT],
) -> Result<usize, Error>
    ensures { placed (told_value result) begins.new ends.new ≡ placing (coverage_of (source_as locations by_table source.now)) begins.old ends.old }
{
    let n = runs_list(source, locations, by_table, begins, ends)?;
    clear_past(n, begins);
    clear_past(n, ends);
    Ok(n)
}

// The ranges of the coverage of the range list at an offset, at the front of two slices, and how many they are: the refusals of
// opening, then the first of a walk's refusal and 10, then 11.
pub fn runs_of_ranges<'a>(
    section: &'a [u8],
    unit: &Unit<'a>,
    offset: RangeListsOffset,
    base_address: u64,
    begins: &mut [u64],
    ends: &mut [u64],
) -> Result<usize, Error>
    ensures { let u = unit.now in placed (told_value result) begins.new ends.new ≡ putting (coverage_of (source range_list u.encoding u.endian section.now offset.0 base_address u.debug_addr.now u.debug_addr_base)) begins.old ends.old }
{
    let source = Source::ranges(section, unit, None, offset, base_address);
    runs_list(&source, false, false, begins, ends)
}

// The same by a table of kind numbers, which bare pairs have no use for.
pub fn runs_of_ranges_by(
    section: &[u8],
    unit: &Unit,
    offset: RangeListsOffset,
    base_address: u64,
    kinds: &[u8],
    begins: &mut [u64],
    ends: &mut [u64],
) -> Result<usize, Error>
    ensures { let u = unit.now in placed (told_value result) begins.new ends.new ≡ putting (coverage_of (source (range_list_by kinds.now) u.encoding u.endian section.now offset.0 base_address u.debug_addr.now u.debug_addr_base)) begins.old ends.old }
{
    let source = Source::ranges(section, unit, Some(kinds), offset, base_address);
    runs_list(&source, false, true, begins, ends)
}

// Those of the location list at an offset, plain or split.
pub fn runs_of_locations(
    section: &[u8],
    unit: &Unit,
    offset: LocationListsOffset,
    base_address: u64,
    file_type: DwarfFileType,
    begins: &mut [u64],
    ends: &mut [u64],
) -> Result<usize, Error>
    ensures { let u = unit.now in placed (told_value result) begins.new ends.new ≡ putting (coverage_of (source (location_list (is_split file_type)) u.encoding u.endian section.now offset.0 base_address u.debug_addr.now u.debug_addr_base)) begins.old ends.old }
{
    let source = Source::locations(section, unit, file_type, offset, base_address);
    runs_list(&source, true, false, begins, ends)
}

// The coverage of the range list at an offset, and how many ranges it has: the refusals of opening, then the first of a walk's
// refusal and 10.
pub fn place_ranges<'a>(
    section: &'a [u8],
    unit: &Unit<'a>,
    offset: RangeListsOffset,
    base_address: u64,
    begins: &mut [u64; LIMIT],
    ends: &mut [u64; LIMIT],
) -> Result<usize, Error>
    ensures { let u = unit.now in placed (told_value result) begins.new ends.new ≡ placing (coverage_of (source range_list u.encoding u.endian section.now offset.0 base_address u.debug_addr.now u.debug_addr_base)) begins.old ends.old }
{
    let source = Source::ranges(section, unit, None, offset, base_address);
    place_list(&source, false, false, begins, ends)
}

// The same by a table of kind numbers, which bare pairs have no use for.
pub fn place_ranges_by(
    section: &[u8],
    unit: &Unit,
    offset: RangeListsOffset,
    base_address: u64,
    kinds: &[u8],
    begins: &mut [u64; LIMIT],
    ends: &mut [u64; LIMIT],
) -> Result<usize, Error>
    ensures { let u = unit.now in placed (told_value result) begins.new ends.new ≡ placing (coverage_of (source (range_list_by kinds.now) u.encoding u.endian section.now offset.0 base_address u.debug_addr.now u.debug_addr_base)) begins.old ends.old }
{
    let source = Source::ranges(section, unit, Some(kinds), offset, base_address);
    place_list(&source, false, true, begins, ends)
}

// That of the location list at an offset, plain or split.
pub fn place_locations(
    section: &[u8],
    unit: &Unit,
    offset: LocationListsOffset,
    base_address: u64,
    file_type: DwarfFileType,
    begins: &mut [u64; LIMIT],
    ends: &mut [u64; LIMIT],
) -> Result<usize, Error>
    ensures { let u = unit.now in placed (told_value result) begins.new ends.new ≡ placing (coverage_of (source (location_list (is_split file_type)) u.encoding u.endian section.now offset.0 base_address u.debug_addr.now u.debug_addr_base)) begins.old ends.old }
{
    let source = Source::locations(section, unit, file_type, offset, base_address);
    place_list(&source, true, false, begins, ends)
}

// That of a canonical list, walked as a section of its own.
pub fn place_canonical(
    bytes: &[u8],
    begins: &mut [u64; LIMIT],
    ends: &mut [u64; LIMIT],
) -> Result<usize, Error>
    ensures { placed (told_value result) begins.new ends.new ≡ placing (coverage_of (read_back Dwarf32 bytes.now 0 [] (record { 0 = 0 }))) begins.old ends.old }
{
    let unit = Unit {
        encoding: Encoding {
            address_size: 8,
            format: Format::Dwarf32,
            version: 5,
        },
        endian: RunTimeEndian::Little,
        debug_addr: &bytes[..0],
        debug_addr_base: DebugAddrBase(0),
    };
    let source = Source::ranges(bytes, &unit, None, RangeListsOffset(0), 0);
    place_list(&source, false, false, begins, ends)
}
