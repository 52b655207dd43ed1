// Tables of kind numbers, and walks of range lists by them.
#![tactic(auto)]

ghost use Rattle.std.specs.Prelude.{◌≡◌};
ghost use Rattle.entries.specs.Numbers.{loading};
ghost use Rattle.lists.specs.Walk.{next_range_by};
ghost use Rattle.ffi_words.specs.Common.{endian_in, encoding_of, left, done_or_refused};
ghost use Rattle.ffi_words.specs.Walks.{walk_in};
ghost use Rattle.ffi_words.specs.Ranges.{range_next};

use ffi_words::common::{DONE, YzDone, YzEncoding};
use ffi_words::ranges::YzRange;
use ffi_words::walks::WalkWords;

#[unsafe(no_mangle)]
pub extern "C" fn yz_kinds_load(table: &[u8]) -> YzDone
    ensures { result ≡ done_or_refused (loading table.now) }
{
    match entries::kinds::load(table) {
        Ok(()) => ffi_words::common::comes_to(DONE),
        Err(e) => ffi_words::common::refused(e),
    }
}

#[unsafe(no_mangle)]
pub extern "C" fn yz_range_next_by(
    section: &[u8],
    debug_addr: &[u8],
    debug_addr_base: u64,
    encoding: YzEncoding,
    kinds: &[u8],
    walk: &mut WalkWords,
) -> YzRange
    ensures { left result walk.new ≡ range_next walk.old (next_range_by kinds.now (encoding_of encoding) (endian_in encoding) section.now debug_addr.now (record { 0 = debug_addr_base }) (walk_in walk.old)) }
{
    let start = ffi_words::walks::start_in(walk);
    let unit = ffi_words::common::unit_of(encoding, debug_addr, debug_addr_base);
    let r = lists::rnglists::next_by(section, &unit, start, kinds);
    ffi_words::ranges::range_next(r, walk)
}
