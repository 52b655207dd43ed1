// Which of the three things stands at an entry that the ordinary walk passes over.
ghost use Rattle.std.specs.Prelude.{◌≡◌};
ghost use Rattle.section_bytes.specs.Address.{add_sized};
ghost use Rattle.lists.specs.Convert.{table_in};
ghost use Rattle.profile.specs.Profile.{tells, added, of_range, of_told, of_lookups};

use entries::RawRngListEntry;
use lists::Unit;
use section_bytes::error::Error;

// 16 for a begin at or above the tombstone bound, then 17 for a begin above the end.
fn of_range(begin: u64, end: u64, size: u8) -> Result<(), Error>
    ensures { result ≡ of_range size begin end }
{
    let bound = section_bytes::address::min_tombstone(size);
    if bound <= begin {
        return Err(Error::Tombstone);
    }
    if end < begin {
        return Err(Error::BackwardRange);
    }
    Ok(())
}

// 16 for the base address, not for the sums, which wrap; then as of a range.
fn of_offsets(begin: u64, end: u64, base_address: u64, size: u8) -> Result<(), Error>
    ensures { result ≡ of_told size (added base_address (add_sized base_address begin size) (add_sized base_address end size)) }
{
    let b = section_bytes::address::wrapping_add_sized(base_address, begin, size);
    let e = section_bytes::address::wrapping_add_sized(base_address, end, size);
    if section_bytes::address::min_tombstone(size) <= base_address {
        return Err(Error::Tombstone);
    }
    of_range(b, e, size)
}

// Whether an entry whose padding was tested keeps to the profile: nothing is told of one whose lookups fail, since the ordinary walk
// refuses it.
pub fn of_entry(raw: RawRngListEntry, unit: &Unit, base_address: u64) -> Result<(), Error>
    ensures { let size = unit.now.encoding.address_size in result ≡ of_lookups size (tells (table_in unit.now) size base_address raw) }
{
    let size = unit.encoding.address_size;
    match raw {
        RawRngListEntry::AddressOrOffsetPair(b, e) => of_offsets(b, e, base_address, size),
        RawRngListEntry::BaseAddress(_) => Ok(()),
        RawRngListEntry::BaseAddressx(_) => Ok(()),
        RawRngListEntry::StartxEndx(i, j) => {
            let Ok(b) = unit.address(i) else {
                return Ok(());
            };
            let Ok(e) = unit.address(j) else {
                return Ok(());
            };
            of_range(b, e, size)
        }
        RawRngListEntry::StartxLength(i, n) => {
            let Ok(b) = unit.address(i) else {
                return Ok(());
            };
            let e = section_bytes::address::wrapping_add_sized(b, n, size);
            of_range(b, e, size)
        }
        RawRngListEntry::OffsetPair(b, e) => of_offsets(b, e, base_address, size),
        RawRngListEntry::StartEnd(b, e) => of_range(b, e, size),
        RawRngListEntry::StartLength(b, n) => {
            let e = section_bytes::address::wrapping_add_sized(b, n, size);
            of_range(b, e, size)
        }
    }
}
