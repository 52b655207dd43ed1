// Location lists: opening, the raw step, conversion, the next location, an expression's bytes.
ghost use Rattle.std.specs.Prelude.{◌≡◌};
ghost use Rattle.section_bytes.specs.Common.{is_split};
ghost use Rattle.section_bytes.specs.Error.{told_value};
ghost use Rattle.section_bytes.specs.Reader.{part_of};
ghost use Rattle.lists.specs.Open.{opened, section_for};
ghost use Rattle.lists.specs.Steps.{told_stepped, location_step};
ghost use Rattle.lists.specs.Walk.{told_raw, noted_location, told_converted_location, converted_location, told_next_location, next_location};

pub use super::listed::Stepped;
use super::{LocationListEntry, Unit, Walk};
use entries::{Expression, Lists, Noted, RawLocListEntry};
use section_bytes::common::{DwarfFileType, Encoding, LocationListsOffset};
use section_bytes::endianity::RunTimeEndian;
use section_bytes::error::Error;

// The section that the lists of a version stand in.
#[tactic(auto, unfolding(crate::specs::Open::section_for))]
pub fn section<'a>(debug_loc: &'a [u8], debug_loclists: &'a [u8], encoding: Encoding) -> &'a [u8]
    ensures { result.now ≡ section_for encoding debug_loc.now debug_loclists.now }
{
    if encoding.version <= 4 {
        return debug_loc;
    }
    debug_loclists
}

// A walk over the locations of the list at an offset: 6 with the size, then 1.
pub fn locations(
    section: &[u8],
    offset: LocationListsOffset,
    encoding: Encoding,
    base_address: u64,
) -> Result<Walk, Error>
    ensures { told_value result ≡ opened encoding section.now offset.0 base_address }
{
    super::open::open(section, offset.0, encoding, base_address)
}

// A walk over its raw entries, which need no base address: 6 with the size, then 1.
pub fn raw_locations(
    section: &[u8],
    offset: LocationListsOffset,
    encoding: Encoding,
) -> Result<Walk, Error>
    ensures { told_value result ≡ opened encoding section.now offset.0 0 }
{
    super::open::open(section, offset.0, encoding, 0)
}

// The next raw entry, and whether some LEB128 number of it is padded; none at the end: 6 with the size before all else, then the
// refusals of an entry. The end mark and a refusal empty the walk.
pub fn next_raw(
    section: &[u8],
    walk: Walk,
    encoding: Encoding,
    endian: RunTimeEndian,
    file_type: DwarfFileType,
) -> (Result<Option<Noted<RawLocListEntry>>, Error>, Walk)
    ensures { told_raw result.0 result.1 ≡ noted_location (is_split file_type) encoding endian section.now walk }
{
    super::listed::next_raw(
        section,
        walk,
        encoding,
        endian,
        &Lists::Locations(file_type),
    )
}

// What a raw entry comes to under a walk's base address, which it may replace: 6 with the size before all else, then
// the refusals of the address table. A refusal leaves the walk as it is.
#[tactic(auto, unfolding(crate::specs::Walk::convert_raw))]
pub fn convert_raw(
    raw: RawLocListEntry,
    unit: &Unit,
    walk: Walk,
) -> (Result<Option<LocationListEntry>, Error>, Walk)
    ensures { let u = unit.now in told_converted_location result.0 result.1 ≡ converted_location u.encoding u.endian u.debug_addr.now u.debug_addr_base walk raw }
{
    let bounds = entries::raw::bounds_of(raw);
    let data = super::convert::expression_of(raw);
    super::listed::convert_raw(bounds, data, unit, walk)
}

// The next location, or none at the end: 6 with the size before all else, then the refusals of an entry, which empty the walk, and
// of the address table, which leave it after the entry.
pub fn next(
    section: &[u8],
    unit: &Unit,
    walk: Walk,
    file_type: DwarfFileType,
) -> (Result<Option<LocationListEntry>, Error>, Walk)
    ensures { let u = unit.now in told_next_location result.0 result.1 ≡ next_location (is_split file_type) u.encoding u.endian section.now u.debug_addr.now u.debug_addr_base walk }
{
    super::listed::next(section, unit, &Lists::Locations(file_type), walk)
}

// The entry at a place of a list, plain or split, and what it comes to under a base address, with the place after it: the refusals of
// an entry. At or past the section's end, and for an end mark, none.
pub fn step(
    section: &[u8],
    unit: &Unit,
    at: usize,
    base_address: u64,
    file_type: DwarfFileType,
) -> Result<Option<(Stepped, usize)>, Error>
    ensures { let u = unit.now in told_stepped result ≡ location_step (is_split file_type) u.encoding u.endian section.now u.debug_addr.now u.debug_addr_base at base_address }
{
    super::listed::step(
        section,
        unit,
        &Lists::Locations(file_type),
        at,
        base_address,
    )
}

// The bytes of an expression as a part of the section; the empty part where it does not lie in the section.
pub fn expression(section: &[u8], data: Expression) -> &[u8]
    ensures { result.now ≡ part_of section.now «data».offset «data».len }
{
    section_bytes::reader::part(section, data.offset, data.len)
}
