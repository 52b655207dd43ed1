// Marks of a walk: eight marks in lent words, and the walk in its own.
#![tactic(auto)]

ghost use Rattle.std.specs.Prelude.{◌≡◌};
ghost use Rattle.marks.specs.Marks.{marked, set_mark, return_to};
ghost use Rattle.ffi_words.specs.Common.{left};
ghost use Rattle.ffi_marks.specs.Marks.{held, words, left_marks, marks_left, walk_left};

use ffi_words::common::YzDone;
use ffi_words::walks::WalkWords;
use section_bytes::error::Error;

// Of each mark whether it is set, any word but 0, and then the words of the walk that it stores.
pub type MarkWords = [[u64; 5]; 8];

// Stores the walk in a mark, in place of what was there: 13 for a number above 7, and the marks are as they were.
#[unsafe(no_mangle)]
pub extern "C" fn yz_mark_set(number: u64, walk: &WalkWords, marks: &mut MarkWords) -> YzDone
    ensures { left_marks result marks.new ≡ marks_left marks.old (set_mark words number (marked (held walk.now) marks.old)) }
{
    if number < 8 {
        marks[number as usize] = [1, walk[0], walk[1], walk[2], walk[3]];
        return ffi_words::common::comes_to(ffi_words::common::DONE);
    }
    ffi_words::common::refused(Error::NoSuchMark)
}

// Brings back the walk that a mark stores: 13 for a number above 7, and for a mark that is not set, and the walk is as it was.
#[unsafe(no_mangle)]
pub extern "C" fn yz_mark_return(number: u64, marks: &MarkWords, walk: &mut WalkWords) -> YzDone
    ensures { left result walk.new ≡ walk_left walk.old (return_to words number (marked (held walk.old) marks.now)) }
{
    if 7 < number {
        return ffi_words::common::refused(Error::NoSuchMark);
    }
    let mark = marks[number as usize];
    if mark[0] == 0 {
        return ffi_words::common::refused(Error::NoSuchMark);
    }
    *walk = [mark[1], mark[2], mark[3], mark[4]];
    ffi_words::common::comes_to(ffi_words::common::DONE)
}
