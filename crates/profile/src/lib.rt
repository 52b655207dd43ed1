// The profile: walks that refuse, beside what the ordinary ones refuse, three things that a compiler is not to write.
#![tactic(auto)]

pub mod held;
mod listed;

ghost use Rattle.std.specs.Prelude.{◌≡◌};
ghost use Rattle.section_bytes.specs.Common.{is_split};
ghost use Rattle.lists.specs.Walk.{told_next_range, told_next_location};
ghost use Rattle.profile.specs.Profile.{profile_range, profile_range_by, profile_location};

use entries::Lists;
use lists::listed::range_answer;
use lists::{LocationListEntry, Range, Unit, Walk};
use section_bytes::common::DwarfFileType;
use section_bytes::error::Error;

// The next range as the ordinary walk gives it, refusals too; but 15 for an entry with a padded number, before its address lookups,
// and when they have succeeded 16 for a base address of an offset pair or a begin at or above the tombstone bound, then 17 for a
// begin above the end. These three empty the walk.
pub fn next_range(section: &[u8], unit: &Unit, walk: Walk) -> (Result<Option<Range>, Error>, Walk)
    ensures { let u = unit.now in told_next_range result.0 result.1 ≡ profile_range u.encoding u.endian section.now u.debug_addr.now u.debug_addr_base walk }
{
    let (answer, after) = listed::next(section, unit, &Lists::Ranges(None), walk);
    (range_answer(answer), after)
}

// The same by a table of kind numbers, which bare pairs have no use for.
pub fn next_range_by(
    section: &[u8],
    unit: &Unit,
    walk: Walk,
    kinds: &[u8],
) -> (Result<Option<Range>, Error>, Walk)
    ensures { let u = unit.now in told_next_range result.0 result.1 ≡ profile_range_by kinds.now u.encoding u.endian section.now u.debug_addr.now u.debug_addr_base walk }
{
    let (answer, after) = listed::next(section, unit, &Lists::Ranges(Some(kinds)), walk);
    (range_answer(answer), after)
}

// The next location, by the same rules; a default location has no bounds that could break 16 or 17.
pub fn next_location(
    section: &[u8],
    unit: &Unit,
    walk: Walk,
    file_type: DwarfFileType,
) -> (Result<Option<LocationListEntry>, Error>, Walk)
    ensures { let u = unit.now in told_next_location result.0 result.1 ≡ profile_location (is_split file_type) u.encoding u.endian section.now u.debug_addr.now u.debug_addr_base walk }
{
    listed::next(section, unit, &Lists::Locations(file_type), walk)
}
