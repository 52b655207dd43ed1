// Profile walks of location lists.
#![tactic(auto)]

ghost use Rattle.std.specs.Prelude.{◌≡◌};
ghost use Rattle.profile.specs.Profile.{profile_location};
ghost use Rattle.ffi_words.specs.Common.{endian_in, encoding_of, left};
ghost use Rattle.ffi_words.specs.Walks.{walk_in, split_in};
ghost use Rattle.ffi_words.specs.Locations.{location_next};

use ffi_words::common::YzEncoding;
use ffi_words::locations::YzLocation;
use ffi_words::walks::WalkWords;

#[unsafe(no_mangle)]
pub extern "C" fn yz_location_next_in_profile(
    section: &[u8],
    debug_addr: &[u8],
    debug_addr_base: u64,
    encoding: YzEncoding,
    walk: &mut WalkWords,
) -> YzLocation
    ensures { left result walk.new ≡ location_next walk.old (profile_location (split_in walk.old) (encoding_of encoding) (endian_in encoding) section.now debug_addr.now (record { 0 = debug_addr_base }) (walk_in walk.old)) }
{
    let start = ffi_words::walks::start_in(walk);
    let file = ffi_words::walks::file_in(walk);
    let unit = ffi_words::common::unit_of(encoding, debug_addr, debug_addr_base);
    let r = profile::next_location(section, &unit, start, file);
    ffi_words::locations::location_next(r, walk)
}
