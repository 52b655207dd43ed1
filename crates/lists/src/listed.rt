// Both lists as one, by which lists are read: the raw step, conversion, the next item. A range list's entries and items are
// locations' without an expression.
ghost use Rattle.std.specs.Prelude.{◌≡◌};
ghost use Rattle.entries.specs.Lists.{are_locations, coding_in};
ghost use Rattle.lists.specs.Convert.{table_in};
ghost use Rattle.lists.specs.Steps.{told_stepped, stepped_in, step_in_unit};
ghost use Rattle.lists.specs.Walk.{told_raw, noted_in, noted_of, told_converted_location, converted, told_next_location, range_only, next_in, next_in_unit};

use super::convert::Converted;
use super::{LocationListEntry, Range, Unit, Walk};
use entries::{Expression, Lists, Noted, RawLocListEntry, RawRngListEntry};
use section_bytes::common::Encoding;
use section_bytes::endianity::RunTimeEndian;
use section_bytes::error::Error;

// The next raw entry, and whether some LEB128 number of it is padded; none at the end: 6 with the size before all else, then the
// refusals of an entry. The end mark and a refusal empty the walk.
#[tactic(auto, using(crate::proofs::ListedLaws::raw_other, crate::proofs::ListedLaws::raw_over))]
pub fn next_raw(
    section: &[u8],
    walk: Walk,
    encoding: Encoding,
    endian: RunTimeEndian,
    lists: &Lists,
) -> (Result<Option<Noted<RawLocListEntry>>, Error>, Walk)
    ensures { let l = are_locations lists.now in noted_in l (told_raw result.0 result.1) ≡ noted_of l (coding_in lists.now) encoding endian section.now walk }
{
    let end = section.len();
    let size = encoding.address_size as u64;
    if !section_bytes::reader::is_address_size(size) {
        return (Err(Error::UnsupportedAddressSize(size)), walk.moved_to(end));
    }
    if end <= walk.at {
        return (Ok(None), walk);
    }
    match entries::padded::noted_entry(section, walk.at, encoding, endian, lists) {
        Ok(Some((noted, after))) => (Ok(Some(noted)), walk.read_to(after)),
        Ok(None) => (Ok(None), walk.read_to(end)),
        Err(e) => (Err(e), walk.moved_to(end)),
    }
}

// What an entry with these bounds and this expression comes to under a walk's base address, which it may replace: 6 with the
// size before all else, then the refusals of the address table. A refusal leaves the walk as it is.
pub fn convert_raw(
    bounds: RawRngListEntry,
    data: Expression,
    unit: &Unit,
    walk: Walk,
) -> (Result<Option<LocationListEntry>, Error>, Walk)
    ensures { told_converted_location result.0 result.1 ≡ converted (table_in unit.now) unit.now.encoding.address_size walk «data» bounds }
{
    let size = unit.encoding.address_size as u64;
    if !section_bytes::reader::is_address_size(size) {
        return (Err(Error::UnsupportedAddressSize(size)), walk);
    }
    // Copied, so that the lookups of its addresses are compiled into this function and not called.
    let unit = *unit;
    match super::convert::convert_entry(bounds, &unit, walk.base_address) {
        Ok(Converted::Range(range)) => (Ok(Some(LocationListEntry { range, data })), walk),
        Ok(Converted::Base(base_address)) => (Ok(None), walk.rebased(base_address)),
        Ok(Converted::Skip) => (Ok(None), walk),
        Err(e) => (Err(e), walk),
    }
}

// The next item, or none at the end: 6 with the size before all else, then the refusals of an entry, which empty the walk, and of
// the address table, which leave it after the entry.
pub fn next(
    section: &[u8],
    unit: &Unit,
    lists: &Lists,
    walk: Walk,
) -> (Result<Option<LocationListEntry>, Error>, Walk)
    ensures { let l = are_locations lists.now in next_in l (told_next_location result.0 result.1) ≡ next_in_unit l (coding_in lists.now) section.now unit.now walk }
{
    let mut at = walk.at;
    let mut base_address = walk.base_address;
    let mut read: u64 = 0;
    let size = unit.encoding.address_size as u64;
    if !section_bytes::reader::is_address_size(size) {
        return (
            Err(Error::UnsupportedAddressSize(size)),
            walk.moved_to(section.len()),
        );
    }
    while at < section.len() {
        match entries::raw::raw_entry(section, at, unit.encoding, unit.endian, lists) {
            Ok(Some((raw, after))) => {
                let more = read + 1;
                let bounds = entries::raw::bounds_of(raw);
                let data = super::convert::expression_of(raw);
                match super::convert::convert_entry(bounds, unit, base_address) {
                    Ok(Converted::Range(range)) => {
                        return (
                            Ok(Some(LocationListEntry { range, data })),
                            walk.gone_on(after, base_address, more),
                        );
                    }
                    Ok(Converted::Base(b)) => {
                        base_address = b;
                    }
                    Ok(Converted::Skip) => {}
                    Err(e) => {
                        return (Err(e), walk.gone_on(after, base_address, more));
                    }
                }
                at = after;
                read = more;
            }
            Ok(None) => {
                return (
                    Ok(None),
                    walk.gone_on(section.len(), base_address, read + 1),
                );
            }
            Err(e) => {
                return (Err(e), walk.gone_on(section.len(), base_address, read));
            }
        }
    }
    (Ok(None), walk.gone_on(at, base_address, read))
}

// What one entry comes to: a bounded location or a default one; another base address; nothing; a failed address lookup.
#[derive(Clone, Copy)]
pub enum Stepped {
    Bounded(LocationListEntry),
    Default(LocationListEntry),
    Base(u64),
    Nothing,
    Failed(Error),
}

// The entry at a place of a list, and what it comes to under a base address, with the place after it; none at or past the section's
// end, and for an end mark: the refusals of an entry. Whether a location is a default one is told by the variant at once: kept beside
// the location until its range was looked at, it costs 5 % more instructions in the median.
#[tactic(auto, using(crate::proofs::SteppedLaws::step_refused, std::proofs::lemmas::Result::err_from_is_err_and))]
pub fn step(
    section: &[u8],
    unit: &Unit,
    lists: &Lists,
    at: usize,
    base_address: u64,
) -> Result<Option<(Stepped, usize)>, Error>
    ensures { let l = are_locations lists.now in stepped_in l (told_stepped result) ≡ step_in_unit l (coding_in lists.now) section.now unit.now at base_address }
{
    let Some((raw, after)) = entries::raw::raw_entry(
        section,
        at,
        unit.encoding,
        unit.endian,
        lists,
    )?
    else {
        return Ok(None);
    };
    let bounds = entries::raw::bounds_of(raw);
    let data = super::convert::expression_of(raw);
    let stepped = match super::convert::convert_entry(bounds, unit, base_address) {
        Ok(Converted::Range(range)) => {
            if super::convert::is_default_in(lists, raw) {
                Stepped::Default(LocationListEntry { range, data })
            } else {
                Stepped::Bounded(LocationListEntry { range, data })
            }
        }
        Ok(Converted::Base(b)) => Stepped::Base(b),
        Ok(Converted::Skip) => Stepped::Nothing,
        Err(e) => Stepped::Failed(e),
    };
    Ok(Some((stepped, after)))
}

// A location found without its expression: what a range list's item is.
pub fn range_answer(
    answer: Result<Option<LocationListEntry>, Error>,
) -> Result<Option<Range>, Error>
    ensures { result ≡ range_only answer }
{
    let Some(location) = answer? else {
        return Ok(None);
    };
    Ok(Some(location.range))
}
