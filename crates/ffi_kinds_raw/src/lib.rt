// Raw entries of range lists by a table of kind numbers.
#![tactic(auto)]

ghost use Rattle.std.specs.Prelude.{◌≡◌};
ghost use Rattle.lists.specs.Walk.{noted_range_by};
ghost use Rattle.ffi_words.specs.Common.{endian_in, encoding_of, left};
ghost use Rattle.ffi_words.specs.Walks.{walk_in};
ghost use Rattle.ffi_words.specs.Entries.{raw_range_told, raw_range_next};

use ffi_words::common::YzEncoding;
use ffi_words::ranges::YzRawRange;
use ffi_words::walks::WalkWords;

// The entry has the number of its kind, and can be handed back in as it is.
#[unsafe(no_mangle)]
pub extern "C" fn yz_range_next_raw_by(
    section: &[u8],
    encoding: YzEncoding,
    kinds: &[u8],
    walk: &mut WalkWords,
) -> YzRawRange
    ensures { left (raw_range_told result) walk.new ≡ raw_range_next walk.old (noted_range_by kinds.now (encoding_of encoding) (endian_in encoding) section.now (walk_in walk.old)) }
{
    let start = ffi_words::walks::walk_in(walk);
    let unit = ffi_words::common::encoding_of(encoding);
    let endian = ffi_words::common::endian_in(encoding);
    let r = lists::rnglists::next_raw_by(section, start, unit, endian, kinds);
    ffi_words::ranges::raw_range(r, walk)
}
