// What a raw entry comes to: address lookups, base address, sums, and the entries that are skipped.
ghost use Rattle.std.specs.Prelude.{◌≡◌, Ok};
ghost use Rattle.section_bytes.specs.Error.{told_value};
ghost use Rattle.entries.specs.Listed.{entry_in};
ghost use Rattle.entries.specs.Lists.{are_locations};
ghost use Rattle.lists.specs.Steps.{is_default_in};
ghost use Rattle.lists.specs.Walks.{is_default};
ghost use Rattle.lists.specs.Convert.{told_turn, told_unchecked, bounded, offsets, convert, expression_of, table_in};

use super::{Range, Unit};
use entries::{Expression, Lists, NO_EXPRESSION, RawLocListEntry, RawRngListEntry};
use section_bytes::common::DebugAddrIndex;
use section_bytes::error::Error;

// A range, another base address, or nothing.
#[derive(Clone, Copy)]
pub enum Converted {
    Range(Range),
    Base(u64),
    Skip,
}

// The range of an entry before it is looked at; or what an entry comes to that has none. All ranges are then tested at one place
// of the code, so that begin and end stay in registers.
#[derive(Clone, Copy)]
enum Unchecked {
    Range(u64, u64),
    Other(Converted),
}

impl<'a> Unit<'a> {
    // The address of an index in the unit's table.
    pub fn address(&self, index: DebugAddrIndex) -> Result<u64, Error>
        ensures { told_value result ≡ table_in self.now index }
    {
        tables::addr::get_address(
            self.debug_addr,
            self.encoding.address_size,
            self.debug_addr_base,
            index,
            self.endian,
        )
    }
}

// A range is skipped when its begin is at or above the tombstone bound, or not below its end.
fn checked(begin: u64, end: u64, size: u8) -> Converted
    ensures { told_turn (Ok result) ≡ bounded size begin end }
{
    if section_bytes::address::min_tombstone(size) <= begin {
        return Converted::Skip;
    }
    if end <= begin {
        return Converted::Skip;
    }
    Converted::Range(Range { begin, end })
}

// An offset pair is skipped when the base is at or above the tombstone bound, even if the sum would wrap.
fn offset_pair(begin: u64, end: u64, base_address: u64, size: u8) -> Unchecked
    ensures { told_unchecked size (Ok result) ≡ offsets size base_address begin end }
{
    let b = section_bytes::address::wrapping_add_sized(base_address, begin, size);
    let e = section_bytes::address::wrapping_add_sized(base_address, end, size);
    if section_bytes::address::min_tombstone(size) <= base_address {
        return Unchecked::Other(Converted::Skip);
    }
    Unchecked::Range(b, e)
}

// The range of an entry: the refusals of the address table, the begin's first.
#[tactic(auto, using(crate::proofs::ConvertLaws::answering), unfolding(crate::specs::Convert::convert))]
fn range_of(raw: RawRngListEntry, unit: &Unit, base_address: u64) -> Result<Unchecked, Error>
    ensures { let size = unit.now.encoding.address_size in told_unchecked size result ≡ convert (table_in unit.now) size base_address raw }
{
    let size = unit.encoding.address_size;
    match raw {
        RawRngListEntry::AddressOrOffsetPair(b, e) => Ok(offset_pair(b, e, base_address, size)),
        RawRngListEntry::BaseAddress(a) => Ok(Unchecked::Other(Converted::Base(a))),
        RawRngListEntry::BaseAddressx(i) => {
            let a = unit.address(i)?;
            Ok(Unchecked::Other(Converted::Base(a)))
        }
        RawRngListEntry::StartxEndx(i, j) => {
            let b = unit.address(i)?;
            let e = unit.address(j)?;
            Ok(Unchecked::Range(b, e))
        }
        RawRngListEntry::StartxLength(i, n) => {
            let b = unit.address(i)?;
            let e = section_bytes::address::wrapping_add_sized(b, n, size);
            Ok(Unchecked::Range(b, e))
        }
        RawRngListEntry::OffsetPair(b, e) => Ok(offset_pair(b, e, base_address, size)),
        RawRngListEntry::StartEnd(b, e) => Ok(Unchecked::Range(b, e)),
        RawRngListEntry::StartLength(b, n) => {
            let e = section_bytes::address::wrapping_add_sized(b, n, size);
            Ok(Unchecked::Range(b, e))
        }
    }
}

// A raw entry of a range list, or the bounds of a location: the refusals of the address table, the begin's first.
#[tactic(auto, using(std::proofs::lemmas::Result::err_from_is_err_and))]
pub fn convert_entry(
    raw: RawRngListEntry,
    unit: &Unit,
    base_address: u64,
) -> Result<Converted, Error>
    ensures { told_turn result ≡ convert (table_in unit.now) unit.now.encoding.address_size base_address raw }
{
    match range_of(raw, unit, base_address)? {
        Unchecked::Range(begin, end) => Ok(checked(begin, end, unit.encoding.address_size)),
        Unchecked::Other(converted) => Ok(converted),
    }
}

// The expression of a location; where there is none, the empty part at the section's start.
pub fn expression_of(raw: RawLocListEntry) -> Expression
    ensures { result ≡ expression_of raw }
{
    match raw {
        RawLocListEntry::BaseAddress(_) | RawLocListEntry::BaseAddressx(_) => NO_EXPRESSION,
        RawLocListEntry::AddressOrOffsetPair(_, _, x)
        | RawLocListEntry::StartxEndx(_, _, x)
        | RawLocListEntry::StartxLength(_, _, x)
        | RawLocListEntry::OffsetPair(_, _, x)
        | RawLocListEntry::DefaultLocation(x)
        | RawLocListEntry::StartEnd(_, _, x)
        | RawLocListEntry::StartLength(_, _, x) => x,
    }
}

// Whether an entry is a default location, by its kind: a bounded entry can have the same bounds.
pub fn is_default(raw: RawLocListEntry) -> bool
    ensures { result ≡ is_default raw }
{
    matches!(raw, RawLocListEntry::DefaultLocation(_))
}

// The same of an entry of either list: a range list has no default location.
#[tactic(auto, using(crate::proofs::ListedLaws::default_in))]
pub fn is_default_in(lists: &Lists, raw: RawLocListEntry) -> bool
    ensures { let l = are_locations lists.now in result ≡ is_default_in l (entry_in l raw) }
{
    match *lists {
        Lists::Ranges(_) => false,
        Lists::Locations(_) => is_default(raw),
    }
}
