// Both lists as one, by which lists are read, as in `lists::listed`.
ghost use Rattle.std.specs.Prelude.{◌≡◌};
ghost use Rattle.entries.specs.Lists.{are_locations, coding_in};
ghost use Rattle.lists.specs.Walk.{told_next_location, next_in};
ghost use Rattle.profile.specs.Profile.{profile_in_unit};

use entries::Lists;
use lists::convert::Converted;
use lists::{LocationListEntry, Unit, Walk};
use section_bytes::error::Error;

// The next item in the profile. An entry that the ordinary walk hands out or refuses is none of 16 and 17, so that only one that it
// passes over is looked at again.
#[tactic(auto, using(crate::proofs::EntryLaws::calling))]
pub fn next(
    section: &[u8],
    unit: &Unit,
    lists: &Lists,
    walk: Walk,
) -> (Result<Option<LocationListEntry>, Error>, Walk)
    ensures { let l = are_locations lists.now in next_in l (told_next_location result.0 result.1) ≡ profile_in_unit l (coding_in lists.now) section.now unit.now walk }
{
    let mut at = walk.at;
    let mut base_address = walk.base_address;
    let mut read: u64 = 0;
    let size = unit.encoding.address_size as u64;
    if !section_bytes::reader::is_address_size(size) {
        return (
            Err(Error::UnsupportedAddressSize(size)),
            walk.gone_on(section.len(), base_address, 0),
        );
    }
    while at < section.len() {
        match entries::padded::noted_entry(section, at, unit.encoding, unit.endian, lists) {
            Ok(Some((noted, after))) => {
                let more = read + 1;
                if noted.padded {
                    return (
                        Err(Error::PaddedNumber),
                        walk.gone_on(section.len(), base_address, more),
                    );
                }
                let raw = noted.entry;
                let bounds = entries::raw::bounds_of(raw);
                let data = lists::convert::expression_of(raw);
                match lists::convert::convert_entry(bounds, unit, base_address) {
                    Ok(Converted::Range(range)) => {
                        return (
                            Ok(Some(LocationListEntry { range, data })),
                            walk.gone_on(after, base_address, more),
                        );
                    }
                    Ok(Converted::Base(b)) => {
                        base_address = b;
                    }
                    Ok(Converted::Skip) => {
                        if let Err(e) = super::held::of_entry(bounds, unit, base_address) {
                            return (Err(e), walk.gone_on(section.len(), base_address, more));
                        }
                    }
                    Err(e) => {
                        return (Err(e), walk.gone_on(after, base_address, more));
                    }
                }
                at = after;
                read = more;
            }
            Ok(None) => {
                return (
                    Ok(None),
                    walk.gone_on(section.len(), base_address, read + 1),
                );
            }
            Err(e) => {
                return (Err(e), walk.gone_on(section.len(), base_address, read));
            }
        }
    }
    (Ok(None), walk.gone_on(at, base_address, read))
}
