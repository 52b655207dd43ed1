// Up to 64 addresses looked up in one reading of a list: each gets the answer that it would get by itself.
#![tactic(auto)]

pub mod answers;
pub mod places;

ghost use Rattle.std.specs.Prelude.{◌≡◌, map, ◌<◌, length, take};
ghost use Rattle.section_bytes.specs.Common.{is_split};
ghost use Rattle.section_bytes.specs.Error.{told_value};
ghost use Rattle.entries.specs.Lists.{are_locations, coding_in};
ghost use Rattle.std.proofs.lemmas.List.Edits.{sets};
ghost use Rattle.lists.specs.Open.{walk_at};
ghost use Rattle.stacks.specs.Either.{row_from, reads_from, together_in};
ghost use Rattle.stacks.specs.Places.{Standing};
ghost use Rattle.stacks.specs.Stack.{longest, answers as answersOf, lookup_ranges, lookup_ranges_by, lookup_locations};

use answers::Rows;
use entries::Lists;
use lists::listed::Stepped;
use lists::{LocationListEntry, Unit};
use places::Addresses;
use section_bytes::common::{DwarfFileType, LocationListsOffset, RangeListsOffset};
use section_bytes::error::Error;

// At most so many addresses.
pub const MOST: usize = 64;

// The answers of the first n addresses, from a place of a list on; how many entries were read is given back. One entry after the other
// goes to the addresses that it holds and that wait; when none waits any more, what follows is not read.
#[tactic(auto, using(lookups::proofs::SeekLaws::step_past))]
fn found_from(
    section: &[u8],
    unit: &Unit,
    lists: &Lists,
    start: usize,
    base: u64,
    addresses: &Addresses,
    n: usize,
    rows: &mut Rows,
) -> u64
    requires { Standing (take n addresses.now) addresses.now × (length (take n addresses.now) ≡ n) × (0 < n) }
    ensures rows_after { rows.new ≡ sets rows.old 0 (map (λ a. row_from (are_locations lists.now) (coding_in lists.now) section.now unit.now a (walk_at start base 0)) (take n addresses.now)) }
    ensures value { result ≡ longest (λ a. reads_from (are_locations lists.now) (coding_in lists.now) section.now unit.now a (walk_at start base 0)) (take n addresses.now) }
{
    // Copied, so that the lookups of its addresses are compiled into the loop and not called.
    let unit = *unit;
    let mut at = start;
    let mut base_address = base;
    let mut read: u64 = 0;
    let mut kept: Option<LocationListEntry> = None;
    let mut low: usize = 0;
    let mut before: u64 = 0;
    let mut after: u64 = addresses[0];
    let mut next = [0usize; MOST];
    loop {
        match lists::listed::step(section, &unit, lists, at, base_address) {
            Ok(Some((stepped, c))) => {
                at = c;
                read += 1;
                match stepped {
                    Stepped::Bounded(location) => {
                        let begin = location.range.begin;
                        let end = location.range.end;
                        if places::may_hold(before, begin, end, after) {
                            let first = places::first_at(addresses, begin);
                            before = places::below(addresses, first);
                            after = places::above(addresses, first);
                            if after < end {
                                let data = answers::shown(lists, location.data);
                                let behind = places::settle(
                                    addresses,
                                    &mut next,
                                    rows,
                                    first,
                                    begin,
                                    end,
                                    data.offset as u64,
                                    data.len as u64,
                                );
                                before = places::below(addresses, behind);
                                after = places::above(addresses, behind);
                                low = places::waiting_from(&next, low, n);
                                if n <= low {
                                    return read;
                                }
                            }
                        }
                    }
                    Stepped::Default(location) => {
                        kept = kept.or(Some(location));
                    }
                    Stepped::Base(b) => {
                        base_address = b;
                    }
                    Stepped::Nothing => {}
                    Stepped::Failed(failed) => {
                        answers::fill(addresses, n, &next, rows, Err(failed));
                        return read;
                    }
                }
            }
            Ok(None) => {
                answers::fill(addresses, n, &next, rows, Ok(kept));
                if at < section.len() {
                    return read + 1;
                }
                return read;
            }
            Err(refused) => {
                answers::fill(addresses, n, &next, rows, Err(refused));
                return read;
            }
        }
    }
}

// The answers of addresses in the list at an offset: 20, then 21, before the list is opened; what refuses the opening is the answer of
// each. Without addresses nothing is opened. How many raw entries were read, the end mark among them, is given back.
#[tactic(auto, using(crate::proofs::AskedLaws::asking))]
fn lookup_in(
    section: &[u8],
    unit: &Unit,
    lists: &Lists,
    offset: u64,
    base_address: u64,
    addresses: &[u64],
    rows: &mut Rows,
) -> Result<u64, Error>
    ensures { answersOf (told_value result) rows.new ≡ together_in (are_locations lists.now) (coding_in lists.now) section.now unit.now offset base_address addresses.now rows.old }
{
    let n = addresses.len();
    if MOST < n {
        return Err(Error::TooManyAddresses);
    }
    if !addresses.is_sorted_by(|a, b| a <= b) {
        return Err(Error::DescendingAddresses);
    }
    if n == 0 {
        return Ok(0);
    }
    let all = places::padded(addresses);
    // Both lists open alike.
    match lists::rnglists::ranges(
        section,
        RangeListsOffset(offset),
        unit.encoding,
        base_address,
    ) {
        Ok(start) => Ok(found_from(section, unit, lists, start.at, base_address, &all, n, rows)),
        Err(e) => {
            answers::fill_all(&all, n, rows, Err(e));
            Ok(0)
        }
    }
}

// The answer of each address in the list at an offset, as a single lookup gives it, and how many entries were read: 20 for more than 64
// addresses, then 21 for one that is above the one after it, both before the list is opened.
pub fn lookup_ranges(
    section: &[u8],
    unit: &Unit,
    offset: RangeListsOffset,
    base_address: u64,
    addresses: &[u64],
    rows: &mut Rows,
) -> Result<u64, Error>
    ensures { let u = unit.now in answersOf (told_value result) rows.new ≡ lookup_ranges u.encoding u.endian section.now u.debug_addr.now u.debug_addr_base offset.0 base_address addresses.now rows.old }
{
    lookup_in(
        section,
        unit,
        &Lists::Ranges(None),
        offset.0,
        base_address,
        addresses,
        rows,
    )
}

// The same by a table of kind numbers, which bare pairs have no use for.
pub fn lookup_ranges_by(
    section: &[u8],
    unit: &Unit,
    offset: RangeListsOffset,
    base_address: u64,
    kinds: &[u8],
    addresses: &[u64],
    rows: &mut Rows,
) -> Result<u64, Error>
    ensures { let u = unit.now in answersOf (told_value result) rows.new ≡ lookup_ranges_by kinds.now u.encoding u.endian section.now u.debug_addr.now u.debug_addr_base offset.0 base_address addresses.now rows.old }
{
    lookup_in(
        section,
        unit,
        &Lists::Ranges(Some(kinds)),
        offset.0,
        base_address,
        addresses,
        rows,
    )
}

// The same in a location list, plain or split.
pub fn lookup_locations(
    section: &[u8],
    unit: &Unit,
    offset: LocationListsOffset,
    base_address: u64,
    file_type: DwarfFileType,
    addresses: &[u64],
    rows: &mut Rows,
) -> Result<u64, Error>
    ensures { let u = unit.now in answersOf (told_value result) rows.new ≡ lookup_locations (is_split file_type) u.encoding u.endian section.now u.debug_addr.now u.debug_addr_base offset.0 base_address addresses.now rows.old }
{
    lookup_in(
        section,
        unit,
        &Lists::Locations(file_type),
        offset.0,
        base_address,
        addresses,
        rows,
    )
}
