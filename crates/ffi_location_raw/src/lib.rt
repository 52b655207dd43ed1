// Raw entries of location lists, and what they come to.
#![tactic(auto)]

ghost use Rattle.std.specs.Prelude.{◌≡◌};
ghost use Rattle.lists.specs.Walk.{noted_location};
ghost use Rattle.ffi_words.specs.Common.{endian_in, encoding_of, left};
ghost use Rattle.ffi_words.specs.Walks.{walk_in, split_in};
ghost use Rattle.ffi_words.specs.Entries.{raw_location_told, raw_location_next, convert_location};
ghost use Rattle.ffi_words.specs.Locations.{location_outcome};

use ffi_words::common::YzEncoding;
use ffi_words::locations::{YzLocation, YzLocationEntry, YzRawLocation};
use ffi_words::walks::WalkWords;

// The entry can be handed back in as it is.
#[unsafe(no_mangle)]
pub extern "C" fn yz_location_next_raw(
    section: &[u8],
    encoding: YzEncoding,
    walk: &mut WalkWords,
) -> YzRawLocation
    ensures { left (raw_location_told result) walk.new ≡ raw_location_next walk.old (noted_location (split_in walk.old) (encoding_of encoding) (endian_in encoding) section.now (walk_in walk.old)) }
{
    let start = ffi_words::walks::walk_in(walk);
    let file = ffi_words::walks::file_in(walk);
    let unit = ffi_words::common::encoding_of(encoding);
    let endian = ffi_words::common::endian_in(encoding);
    let r = lists::loclists::next_raw(section, start, unit, endian, file);
    ffi_words::locations::raw_location(r, walk)
}

// 6 with the size before all else, then 4 for a code above the kinds, then the refusals of the address table.
#[unsafe(no_mangle)]
pub extern "C" fn yz_location_convert_raw(
    debug_addr: &[u8],
    debug_addr_base: u64,
    encoding: YzEncoding,
    entry: YzLocationEntry,
    walk: &mut WalkWords,
) -> YzLocation
    ensures { left result walk.new ≡ location_outcome walk.old (convert_location (encoding_of encoding) (endian_in encoding) debug_addr.now (record { 0 = debug_addr_base }) (walk_in walk.old) entry) }
{
    let start = ffi_words::walks::walk_in(walk);
    let unit = ffi_words::common::unit_of(encoding, debug_addr, debug_addr_base);
    let r = ffi_words::locations::convert(entry, &unit, start);
    ffi_words::locations::location_converted(r, walk)
}
