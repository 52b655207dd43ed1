// Raw entries of range lists, and what they come to.
#![tactic(auto)]

ghost use Rattle.std.specs.Prelude.{◌≡◌};
ghost use Rattle.lists.specs.Walk.{noted_range};
ghost use Rattle.ffi_words.specs.Common.{endian_in, encoding_of, left};
ghost use Rattle.ffi_words.specs.Walks.{walk_in};
ghost use Rattle.ffi_words.specs.Entries.{raw_range_told, raw_range_next, convert_range};
ghost use Rattle.ffi_words.specs.Ranges.{range_outcome};

use ffi_words::common::YzEncoding;
use ffi_words::ranges::{YzRange, YzRangeEntry, YzRawRange};
use ffi_words::walks::WalkWords;

// The entry can be handed back in as it is.
#[unsafe(no_mangle)]
pub extern "C" fn yz_range_next_raw(
    section: &[u8],
    encoding: YzEncoding,
    walk: &mut WalkWords,
) -> YzRawRange
    ensures { left (raw_range_told result) walk.new ≡ raw_range_next walk.old (noted_range (encoding_of encoding) (endian_in encoding) section.now (walk_in walk.old)) }
{
    let start = ffi_words::walks::walk_in(walk);
    let unit = ffi_words::common::encoding_of(encoding);
    let endian = ffi_words::common::endian_in(encoding);
    let r = lists::rnglists::next_raw(section, start, unit, endian);
    ffi_words::ranges::raw_range(r, walk)
}

// 6 with the size before all else, then 3 for a code above the kinds, then the refusals of the address table.
#[unsafe(no_mangle)]
pub extern "C" fn yz_range_convert_raw(
    debug_addr: &[u8],
    debug_addr_base: u64,
    encoding: YzEncoding,
    entry: YzRangeEntry,
    walk: &mut WalkWords,
) -> YzRange
    ensures { left result walk.new ≡ range_outcome walk.old (convert_range (encoding_of encoding) (endian_in encoding) debug_addr.now (record { 0 = debug_addr_base }) (walk_in walk.old) entry) }
{
    let start = ffi_words::walks::walk_in(walk);
    let unit = ffi_words::common::unit_of(encoding, debug_addr, debug_addr_base);
    let r = ffi_words::ranges::convert(entry, &unit, start);
    ffi_words::ranges::range_converted(r, walk)
}
