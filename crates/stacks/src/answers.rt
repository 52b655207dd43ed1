// An answer in words, as the exported calls have it; and the answers of addresses that are still waiting when the reading ends.
ghost use Rattle.std.specs.Prelude.{◌≡◌, ◌≤◌, ◌<◌, replicate, set};
ghost use Rattle.entries.specs.Listed.{no_expression};
ghost use Rattle.section_bytes.specs.Read.{pick};
ghost use Rattle.ffi_words.specs.Coverages.{count_written};
ghost use Rattle.lookups.specs.Lookup.{told_location_found};
ghost use Rattle.stacks.specs.Either.{given_to};
ghost use Rattle.stacks.specs.Places.{Filled};
ghost use Rattle.section_bytes.specs.Error.{told_value};
ghost use Rattle.entries.specs.Lists.{are_locations};
ghost use Rattle.stacks.specs.Stack.{words, location_row};

use super::MOST;
use super::places::{Addresses, Next};
use entries::{Expression, Lists, NO_EXPRESSION};
use ffi_words::coverages::YzCount;
use ffi_words::locations::YzLocation;
use lists::LocationListEntry;
use section_bytes::error::Error;

// The words of the answers, six for each.
pub type Rows = [[u64; 6]; MOST];

// The expression of a location; a range has none, which is told as the empty part at the section's start.
pub(crate) fn shown(lists: &Lists, data: Expression) -> Expression
    ensures { result ≡ pick (are_locations lists.now) «data» no_expression }
{
    match *lists {
        Lists::Ranges(_) => NO_EXPRESSION,
        Lists::Locations(_) => data,
    }
}

// What an address that waits gets where the reading ends: the refusal met, or the default location that was kept, where that holds it.
#[tactic(auto, using(std::proofs::lemmas::Result::err_from_is_err_and))]
fn given(
    last: Result<Option<LocationListEntry>, Error>,
    address: u64,
) -> Result<Option<LocationListEntry>, Error>
    ensures { told_location_found result ≡ given_to address (told_location_found last) }
{
    let Some(location) = last? else {
        return Ok(None);
    };
    if lookups::holds(location.range, address) {
        return Ok(Some(location));
    }
    Ok(None)
}

// An answer is put at a place.
fn put(rows: &mut Rows, i: usize, found: YzLocation)
    requires { i < 64 }
    ensures { rows.new ≡ set rows.old i (words found) }
{
    let done = found.done;
    let expression = found.expression;
    rows[i] = [
        (done.result as u64) + (done.refusal as u64) * 0x1_0000_0000,
        done.refusal_value,
        found.begin,
        found.end,
        expression.offset,
        expression.length,
    ];
}

// Each of the first n places that waits gets the last answer.
#[tactic(auto, using(crate::proofs::SettleLaws::fill_start, crate::proofs::SettleLaws::fill_put, crate::proofs::SettleLaws::fill_skip, crate::proofs::SettleLaws::fill_until))]
pub(crate) fn fill(
    addresses: &Addresses,
    n: usize,
    next: &Next,
    rows: &mut Rows,
    last: Result<Option<LocationListEntry>, Error>,
)
    requires { n ≤ 64 }
    ensures { Filled (λ a. location_row (given_to a (told_location_found last))) addresses.now n next.now rows.old rows.new }
{
    let mut i: usize = 0;
    while i < n {
        if next[i] <= i {
            let found = given(last, addresses[i]);
            put(rows, i, ffi_words::locations::location_found(found));
            i += 1;
        } else {
            i += 1;
        }
    }
}

// The same where every place waits. A function of its own, so that its array shares the stack with those of the reading.
pub(crate) fn fill_all(
    addresses: &Addresses,
    n: usize,
    rows: &mut Rows,
    last: Result<Option<LocationListEntry>, Error>,
)
    requires { n ≤ 64 }
    ensures { Filled (λ a. location_row (given_to a (told_location_found last))) addresses.now n (replicate 64 0) rows.old rows.new }
{
    let next = [0usize; MOST];
    fill(addresses, n, &next, rows, last);
}

// How many entries were read, for C.
pub fn count_read(r: Result<u64, Error>) -> YzCount
    ensures { result ≡ count_written (told_value r) }
{
    match r {
        Ok(count) => YzCount {
            done: ffi_words::common::comes_to(ffi_words::common::DONE),
            count,
        },
        Err(e) => YzCount {
            done: ffi_words::common::refused(e),
            count: 0,
        },
    }
}
