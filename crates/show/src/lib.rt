// The program over sheets: what it prints for the bytes that it was given.
#![tactic(auto)]

ghost use Rattle.std.specs.Prelude.{◌≡◌, IfOk};
ghost use Rattle.show.specs.Show.{is_given};
ghost use Rattle.sheets.specs.Sheet.{sheet_ranges};

use coverage::{Coverage, LIMIT};
use sheets::{HEAD, RANGE};
use std::io;

// The bytes of a sheet of one range more than a coverage keeps, and one more: such a sheet is refused for its count, and a
// longer input for its length, neither because it was cut.
pub const ROOM: usize = HEAD + RANGE * (LIMIT + 1) + 1;

// The count in decimal, then a line for each range.
fn print_coverage(rt: &impl Print, coverage: &Coverage) -> io::Result<()> {
    println!(rt; "{}", coverage.n)?;
    let ranges = coverage.begins.iter().zip(&coverage.ends);
    for (begin, end) in ranges.take(coverage.n) {
        println!(rt; "{begin:016x} {end:016x}")?;
    }
    Ok(())
}

// Prints the ranges of a sheet, or the refusal; answers whether the bytes are a sheet.
pub fn show(rt: &impl Print, sheet: &[u8]) -> io::Result<bool>
    ensures { IfOk result (λ given. given ≡ is_given (sheet_ranges sheet.now)) }
{
    match sheets::from_sheet(sheet) {
        Ok(coverage) => {
            print_coverage(rt, &coverage)?;
            Ok(true)
        }
        Err(e) => {
            println!(rt; "refused {}", e.number())?;
            Ok(false)
        }
    }
}
