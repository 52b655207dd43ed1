// Walks of location lists.
#![tactic(auto)]

ghost use Rattle.std.specs.Prelude.{◌≡◌};
ghost use Rattle.lists.specs.Open.{opened};
ghost use Rattle.lists.specs.Walk.{next_location};
ghost use Rattle.ffi_words.specs.Common.{endian_in, encoding_of, is_set, left};
ghost use Rattle.ffi_words.specs.Walks.{walk_in, split_in, opened_words};
ghost use Rattle.ffi_words.specs.Locations.{location_next};

use ffi_words::common::{YzDone, YzEncoding};
use ffi_words::locations::YzLocation;
use ffi_words::walks::WalkWords;
use section_bytes::common::LocationListsOffset;

// The list of a .dwo file is split. A refused opening leaves the walk as it was.
#[unsafe(no_mangle)]
pub extern "C" fn yz_location_open(
    section: &[u8],
    encoding: YzEncoding,
    file_type: u32,
    offset: u64,
    base_address: u64,
    walk: &mut WalkWords,
) -> YzDone
    ensures { left result walk.new ≡ opened_words walk.old (is_set file_type) (opened (encoding_of encoding) section.now offset base_address) }
{
    let unit = ffi_words::common::encoding_of(encoding);
    let split = ffi_words::common::is_set(file_type as u64);
    let r = lists::loclists::locations(section, LocationListsOffset(offset), unit, base_address);
    ffi_words::walks::opened(r, split, walk)
}

#[unsafe(no_mangle)]
pub extern "C" fn yz_location_next(
    section: &[u8],
    debug_addr: &[u8],
    debug_addr_base: u64,
    encoding: YzEncoding,
    walk: &mut WalkWords,
) -> YzLocation
    ensures { left result walk.new ≡ location_next walk.old (next_location (split_in walk.old) (encoding_of encoding) (endian_in encoding) section.now debug_addr.now (record { 0 = debug_addr_base }) (walk_in walk.old)) }
{
    let start = ffi_words::walks::start_in(walk);
    let file = ffi_words::walks::file_in(walk);
    let unit = ffi_words::common::unit_of(encoding, debug_addr, debug_addr_base);
    let r = lists::loclists::next(section, &unit, start, file);
    ffi_words::locations::location_next(r, walk)
}
