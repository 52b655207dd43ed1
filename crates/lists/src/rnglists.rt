// Range lists: opening, the raw step, conversion, the next range.
ghost use Rattle.std.specs.Prelude.{◌≡◌, false};
ghost use Rattle.section_bytes.specs.Error.{told_value};
ghost use Rattle.lists.specs.Open.{opened, section_for};
ghost use Rattle.lists.specs.declared.Walk.{Walk};
ghost use Rattle.lists.specs.Walk.{told_raw, noted_in, noted_of, coding_by, noted_range as noted_range_in, noted_range_by, told_converted_range, converted_range, told_next_range, next_range, next_range_by};

use super::listed::range_answer;
use super::{Range, Unit, Walk};
use entries::{Lists, NO_EXPRESSION, Noted, RawLocListEntry, RawRngListEntry};
use section_bytes::common::{Encoding, RangeListsOffset};
use section_bytes::endianity::RunTimeEndian;
use section_bytes::error::Error;

// The section that the lists of a version stand in.
#[tactic(auto, unfolding(crate::specs::Open::section_for))]
pub fn section<'a>(debug_ranges: &'a [u8], debug_rnglists: &'a [u8], encoding: Encoding) -> &'a [u8]
    ensures { result.now ≡ section_for encoding debug_ranges.now debug_rnglists.now }
{
    if encoding.version <= 4 {
        return debug_ranges;
    }
    debug_rnglists
}

// A walk over the ranges of the list at an offset: 6 with the size, then 1.
pub fn ranges(
    section: &[u8],
    offset: RangeListsOffset,
    encoding: Encoding,
    base_address: u64,
) -> Result<Walk, Error>
    ensures { told_value result ≡ opened encoding section.now offset.0 base_address }
{
    super::open::open(section, offset.0, encoding, base_address)
}

// A walk over its raw entries, which need no base address: 6 with the size, then 1.
pub fn raw_ranges(
    section: &[u8],
    offset: RangeListsOffset,
    encoding: Encoding,
) -> Result<Walk, Error>
    ensures { told_value result ≡ opened encoding section.now offset.0 0 }
{
    super::open::open(section, offset.0, encoding, 0)
}

// A raw location noted without what it carries.
fn noted_range(
    answer: Result<Option<Noted<RawLocListEntry>>, Error>,
) -> Result<Option<Noted<RawRngListEntry>>, Error>
    ensures { (w : Walk) → told_raw result w ≡ noted_in false (told_raw answer w) }
{
    let Some(noted) = answer? else {
        return Ok(None);
    };
    let entry = entries::raw::bounds_of(noted.entry);
    let padded = noted.padded;
    Ok(Some(Noted { entry, padded }))
}

// The next raw entry of a range list with the kind numbers of DWARF or of a table.
fn next_noted(
    section: &[u8],
    walk: Walk,
    encoding: Encoding,
    endian: RunTimeEndian,
    kinds: Option<&[u8]>,
) -> (Result<Option<Noted<RawRngListEntry>>, Error>, Walk)
    ensures { told_raw result.0 result.1 ≡ noted_of false (coding_by kinds.entry) encoding endian section.now walk }
{
    let lists = Lists::Ranges(kinds);
    let (answer, after) = super::listed::next_raw(section, walk, encoding, endian, &lists);
    (noted_range(answer), after)
}

// The next raw entry, and whether some LEB128 number of it is padded; none at the end: 6 with the size before all else, then the
// refusals of an entry. The end mark and a refusal empty the walk.
pub fn next_raw(
    section: &[u8],
    walk: Walk,
    encoding: Encoding,
    endian: RunTimeEndian,
) -> (Result<Option<Noted<RawRngListEntry>>, Error>, Walk)
    ensures { told_raw result.0 result.1 ≡ noted_range_in encoding endian section.now walk }
{
    next_noted(section, walk, encoding, endian, None)
}

// The same by a table of kind numbers, which bare pairs have no use for; a code without a kind is refused with 3 and the code.
pub fn next_raw_by(
    section: &[u8],
    walk: Walk,
    encoding: Encoding,
    endian: RunTimeEndian,
    kinds: &[u8],
) -> (Result<Option<Noted<RawRngListEntry>>, Error>, Walk)
    ensures { told_raw result.0 result.1 ≡ noted_range_by kinds.now encoding endian section.now walk }
{
    next_noted(section, walk, encoding, endian, Some(kinds))
}

// What a raw entry comes to under a walk's base address, which it may replace: 6 with the size before all else, then
// the refusals of the address table. A refusal leaves the walk as it is.
#[tactic(auto, using(crate::proofs::ListedLaws::converted_ranges), unfolding(crate::specs::Walk::convert_raw))]
pub fn convert_raw(
    raw: RawRngListEntry,
    unit: &Unit,
    walk: Walk,
) -> (Result<Option<Range>, Error>, Walk)
    ensures { let u = unit.now in told_converted_range result.0 result.1 ≡ converted_range u.encoding u.endian u.debug_addr.now u.debug_addr_base walk raw }
{
    let (answer, after) = super::listed::convert_raw(raw, NO_EXPRESSION, unit, walk);
    (range_answer(answer), after)
}

// The next range, or none at the end: 6 with the size before all else, then the refusals of an entry, which empty the walk, and of
// the address table, which leave it after the entry.
pub fn next(section: &[u8], unit: &Unit, walk: Walk) -> (Result<Option<Range>, Error>, Walk)
    ensures { let u = unit.now in told_next_range result.0 result.1 ≡ next_range u.encoding u.endian section.now u.debug_addr.now u.debug_addr_base walk }
{
    let (answer, after) = super::listed::next(section, unit, &Lists::Ranges(None), walk);
    (range_answer(answer), after)
}

// The same by a table of kind numbers, which bare pairs have no use for; a code without a kind is refused with 3 and the code.
pub fn next_by(
    section: &[u8],
    unit: &Unit,
    walk: Walk,
    kinds: &[u8],
) -> (Result<Option<Range>, Error>, Walk)
    ensures { let u = unit.now in told_next_range result.0 result.1 ≡ next_range_by kinds.now u.encoding u.endian section.now u.debug_addr.now u.debug_addr_base walk }
{
    let (answer, after) = super::listed::next(section, unit, &Lists::Ranges(Some(kinds)), walk);
    (range_answer(answer), after)
}
