// Marks of a walk: setting one stores the walk, returning to it brings the walk back. Neither call takes a section, so that
// neither reads a byte; whether the address size is one that is read is asked by the next call that reads.
#![tactic(auto)]

ghost use Rattle.std.specs.Prelude.{◌≡◌};
ghost use Rattle.marks.specs.Marks.{fresh, set_mark, return_to, answered};
ghost use Rattle.marks.specs.Told.{structs, marked_in, told_marking};

use lists::Walk;
use section_bytes::error::Error;

// A walk, and its marks by number, 0 to 7: where one is set, the walk that it stores.
#[derive(Clone, Copy)]
pub struct MarkedWalk {
    pub walk: Walk,
    pub marks: [Option<Walk>; 8],
}

impl MarkedWalk {
    // A walk with no mark set.
    pub fn new(walk: Walk) -> MarkedWalk
        ensures { marked_in result ≡ fresh structs walk }
    {
        MarkedWalk {
            walk,
            marks: [None; 8],
        }
    }

    // Stores the walk in a mark, in place of what was there: 13 for a number above 7.
    pub fn set_mark(self, number: u64) -> (Result<(), Error>, MarkedWalk)
        ensures { told_marking result.0 result.1 ≡ answered (marked_in self) (set_mark structs number (marked_in self)) }
    {
        if number < 8 {
            let mut after = self;
            after.marks[number as usize] = Some(self.walk);
            return (Ok(()), after);
        }
        (Err(Error::NoSuchMark), self)
    }

    // Brings back the walk that a mark stores, and leaves the marks: 13 for a number above 7, and for a mark that is not set.
    pub fn return_to(self, number: u64) -> (Result<(), Error>, MarkedWalk)
        ensures { told_marking result.0 result.1 ≡ answered (marked_in self) (return_to structs number (marked_in self)) }
    {
        if number < 8 {
            if let Some(walk) = self.marks[number as usize] {
                let marks = self.marks;
                return (Ok(()), MarkedWalk { walk, marks });
            }
        }
        (Err(Error::NoSuchMark), self)
    }
}
