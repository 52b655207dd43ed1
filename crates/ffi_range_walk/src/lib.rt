// Walks of range lists.
#![tactic(auto)]

ghost use Rattle.std.specs.Prelude.{◌≡◌, false};
ghost use Rattle.lists.specs.Open.{opened};
ghost use Rattle.lists.specs.Walk.{next_range};
ghost use Rattle.ffi_words.specs.Common.{endian_in, encoding_of, left};
ghost use Rattle.ffi_words.specs.Walks.{walk_in, opened_words};
ghost use Rattle.ffi_words.specs.Ranges.{range_next};

use ffi_words::common::{YzDone, YzEncoding};
use ffi_words::ranges::YzRange;
use ffi_words::walks::WalkWords;
use section_bytes::common::RangeListsOffset;

// A refused opening leaves the walk as it was.
#[unsafe(no_mangle)]
pub extern "C" fn yz_range_open(
    section: &[u8],
    encoding: YzEncoding,
    offset: u64,
    base_address: u64,
    walk: &mut WalkWords,
) -> YzDone
    ensures { left result walk.new ≡ opened_words walk.old false (opened (encoding_of encoding) section.now offset base_address) }
{
    let unit = ffi_words::common::encoding_of(encoding);
    let r = lists::rnglists::ranges(section, RangeListsOffset(offset), unit, base_address);
    ffi_words::walks::opened(r, false, walk)
}

#[unsafe(no_mangle)]
pub extern "C" fn yz_range_next(
    section: &[u8],
    debug_addr: &[u8],
    debug_addr_base: u64,
    encoding: YzEncoding,
    walk: &mut WalkWords,
) -> YzRange
    ensures { left result walk.new ≡ range_next walk.old (next_range (encoding_of encoding) (endian_in encoding) section.now debug_addr.now (record { 0 = debug_addr_base }) (walk_in walk.old)) }
{
    let start = ffi_words::walks::start_in(walk);
    let unit = ffi_words::common::unit_of(encoding, debug_addr, debug_addr_base);
    let r = lists::rnglists::next(section, &unit, start);
    ffi_words::ranges::range_next(r, walk)
}
