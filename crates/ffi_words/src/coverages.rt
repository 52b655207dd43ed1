// Coverages, sheets and canonical lists.
ghost use Rattle.std.specs.Prelude.{◌≡◌};
ghost use Rattle.section_bytes.specs.Error.{told_value};
ghost use Rattle.ffi_words.specs.Common.{done};
ghost use Rattle.ffi_words.specs.Coverages.{count as count_of, no_count, count_written};

use super::common::{DONE, YzDone};
use coverage::LIMIT;
use section_bytes::error::Error;

// How many ranges a coverage has, or how many bytes were written.
#[repr(C)]
#[derive(Clone, Copy)]
pub struct YzCount {
    pub done: YzDone,
    pub count: u64,
}

// The begins of a coverage, or its ends: as many places as it may keep ranges.
pub type Places = [u64; LIMIT];

fn count_told(n: usize) -> YzCount
    ensures { result ≡ count_of done n }
{
    YzCount {
        done: super::common::comes_to(DONE),
        count: n as u64,
    }
}

fn no_count(done: YzDone) -> YzCount
    ensures { result ≡ no_count done }
{
    YzCount { done, count: 0 }
}

pub fn count_written(r: Result<usize, Error>) -> YzCount
    ensures { result ≡ count_written (told_value r) }
{
    match r {
        Ok(n) => count_told(n),
        Err(e) => no_count(super::common::refused(e)),
    }
}
