// The first range of a list that holds an address; in a location list the first bounded one with its expression, and where none
// does, the first default location.
#![tactic(auto)]

ghost use Rattle.std.specs.Prelude.{◌≡◌, true, false};
ghost use Rattle.section_bytes.specs.Common.{is_split};
ghost use Rattle.section_bytes.specs.Reader.{is_size};
ghost use Rattle.lists.specs.Walk.{coding_by};
ghost use Rattle.lookups.specs.Lookup.{holds as holdsAt, range_of, told_range_found, lookup_range_from_unit, lookup_range_in_unit, lookup_range, lookup_range_by, told_location_found, lookup_location_from, lookup_location};

use entries::Lists;
use lists::listed::{Stepped, range_answer};
use lists::{LocationListEntry, Range, Unit, Walk};
use section_bytes::common::{DwarfFileType, LocationListsOffset, RangeListsOffset};
use section_bytes::error::Error;

// Whether an address lies in a range.
pub fn holds(range: Range, address: u64) -> bool
    ensures { result ≡ holdsAt address range.begin range.end }
{
    range.begin <= address && address < range.end
}

// The first range from a walk on that holds an address, or the first refusal met before it.
#[tactic(auto, using(crate::proofs::LookupLaws::looking))]
fn range_from(
    section: &[u8],
    unit: &Unit,
    kinds: Option<&[u8]>,
    start: Walk,
    address: u64,
) -> Result<Option<LocationListEntry>, Error>
    requires { is_size unit.now.encoding.address_size ≡ true }
    ensures { range_of (told_location_found result) ≡ lookup_range_from_unit (coding_by kinds.entry) section.now unit.now address start }
{
    let ranges = Lists::Ranges(kinds);
    let mut walk = start;
    loop {
        let (answer, after) = lists::listed::next(section, unit, &ranges, walk);
        let Some(item) = answer? else {
            return Ok(None);
        };
        if holds(item.range, address) {
            return Ok(Some(item));
        }
        walk = after;
    }
}

// The first range of the list at an offset that holds an address, with the kind numbers of DWARF or of a table.
#[tactic(auto, using(lists::proofs::OpenLaws::opened_size))]
fn lookup_in(
    section: &[u8],
    unit: &Unit,
    kinds: Option<&[u8]>,
    offset: RangeListsOffset,
    base_address: u64,
    address: u64,
) -> Result<Option<Range>, Error>
    ensures { told_range_found result ≡ lookup_range_in_unit (coding_by kinds.entry) section.now unit.now offset.0 base_address address }
{
    let start = lists::rnglists::ranges(section, offset, unit.encoding, base_address)?;
    range_answer(range_from(section, unit, kinds, start, address))
}

// The first range of the list at an offset that holds an address, or none: the refusals of opening, then the first that the walk
// meets before that range. What follows it is not read.
pub fn lookup_range(
    section: &[u8],
    unit: &Unit,
    offset: RangeListsOffset,
    base_address: u64,
    address: u64,
) -> Result<Option<Range>, Error>
    ensures { let u = unit.now in told_range_found result ≡ lookup_range u.encoding u.endian section.now u.debug_addr.now u.debug_addr_base offset.0 base_address address }
{
    lookup_in(section, unit, None, offset, base_address, address)
}

// The same by a table of kind numbers, which bare pairs have no use for.
pub fn lookup_range_by(
    section: &[u8],
    unit: &Unit,
    offset: RangeListsOffset,
    base_address: u64,
    kinds: &[u8],
    address: u64,
) -> Result<Option<Range>, Error>
    ensures { let u = unit.now in told_range_found result ≡ lookup_range_by kinds.now u.encoding u.endian section.now u.debug_addr.now u.debug_addr_base offset.0 base_address address }
{
    lookup_in(section, unit, Some(kinds), offset, base_address, address)
}

// The first bounded location from a walk on whose range holds an address, or the first refusal met before it; at the end of the
// list the first default location, which is kept until then.
#[tactic(auto, using(crate::proofs::SeekLaws::seeking))]
fn location_from(
    section: &[u8],
    unit: &Unit,
    file_type: DwarfFileType,
    start: Walk,
    address: u64,
) -> Result<Option<LocationListEntry>, Error>
    ensures { let u = unit.now in told_location_found result ≡ lookup_location_from (is_split file_type) u.encoding u.endian section.now u.debug_addr.now u.debug_addr_base address start }
{
    let locations = Lists::Locations(file_type);
    let mut at = start.at;
    let mut base_address = start.base_address;
    let mut kept: Option<LocationListEntry> = None;
    while let Some((stepped, after)) = lists::listed::step(
        section,
        unit,
        &locations,
        at,
        base_address,
    )? {
        match stepped {
            Stepped::Bounded(location) => {
                if holds(location.range, address) {
                    return Ok(Some(location));
                }
            }
            Stepped::Default(location) => {
                if holds(location.range, address) {
                    kept = kept.or(Some(location));
                }
            }
            Stepped::Base(b) => {
                base_address = b;
            }
            Stepped::Nothing => {}
            Stepped::Failed(e) => {
                return Err(e);
            }
        }
        at = after;
    }
    Ok(kept)
}

// The location of an address in the list at an offset, plain or split: of the first bounded entry whose range holds it, and where
// the list has ended without one, of the first default location. The refusals of opening, then the first that the walk meets
// before that bounded entry, also behind a default location. What follows the bounded entry is not read.
pub fn lookup_location(
    section: &[u8],
    unit: &Unit,
    offset: LocationListsOffset,
    base_address: u64,
    file_type: DwarfFileType,
    address: u64,
) -> Result<Option<LocationListEntry>, Error>
    ensures { let u = unit.now in told_location_found result ≡ lookup_location (is_split file_type) u.encoding u.endian section.now u.debug_addr.now u.debug_addr_base offset.0 base_address address }
{
    let start = lists::loclists::locations(section, offset, unit.encoding, base_address)?;
    location_from(section, unit, file_type, start, address)
}
