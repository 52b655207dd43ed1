// A walk in lent words: its place, its base address, how many raw entries it has read, and whether its list is split. A call
// hands a walk back in the same words and leaves the last as it is.
ghost use Rattle.std.specs.Prelude.{◌≡◌};
ghost use Rattle.section_bytes.specs.Error.{told_value};
ghost use Rattle.ffi_words.specs.Common.{file_of, left};
ghost use Rattle.lists.specs.Uncounted.{uncounted};
ghost use Rattle.lists.specs.Risen.{raised};
ghost use Rattle.ffi_words.specs.Walks.{walk_in, count_in, split_in, handed_back, opened_words};

use super::common::YzDone;
use lists::Walk;
use section_bytes::common::DwarfFileType;
use section_bytes::error::Error;

pub type WalkWords = [u64; 4];

pub fn walk_in(words: &WalkWords) -> Walk
    ensures { result ≡ walk_in words.now }
{
    Walk {
        at: words[0] as usize,
        base_address: words[1],
        entries: words[2],
    }
}

// The walk with no entry counted: a call over many entries counts its own, and `hand_on` adds them, so that the count of before need not
// be kept while they are read.
pub fn start_in(words: &WalkWords) -> Walk
    ensures { result ≡ uncounted (walk_in words.now) }
{
    Walk {
        at: words[0] as usize,
        base_address: words[1],
        entries: 0,
    }
}

// Any word but 0 says that the list is of a split file.
pub fn file_in(words: &WalkWords) -> DwarfFileType
    ensures { result ≡ file_of (split_in words.now) }
{
    super::common::file_of(words[3])
}

// A base address that stays is not written. With the write, raw entries of range lists take up to two fifths longer: the compiler then
// reads the base address and the count as one number of 16 bytes when the next call begins, which waits for the count that the call
// before it wrote.
pub fn hand_back(words: &mut WalkWords, walk: Walk)
    ensures { words.new ≡ handed_back words.old walk }
{
    words[0] = walk.at as u64;
    words[2] = walk.entries;
    if words[1] != walk.base_address {
        words[1] = walk.base_address;
    }
}

pub fn hand_on(words: &mut WalkWords, walk: Walk)
    ensures { words.new ≡ handed_back words.old (raised (count_in words.old) walk) }
{
    let entries = lists::count::risen(words[2], walk.entries);
    let split = words[3];
    *words = [walk.at as u64, walk.base_address, entries, split];
}

// A list that was opened; a refused opening leaves the words as they were.
pub fn opened(r: Result<Walk, Error>, split: bool, words: &mut WalkWords) -> YzDone
    ensures { left result words.new ≡ opened_words words.old split (told_value r) }
{
    match r {
        Ok(walk) => {
            *words = [
                walk.at as u64,
                walk.base_address,
                walk.entries,
                split as u64,
            ];
            super::common::comes_to(super::common::DONE)
        }
        Err(e) => super::common::refused(e),
    }
}
