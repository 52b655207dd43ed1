// Coverages, sheets and canonical lists.
ghost use Rattle.std.specs.Prelude.{true, ◌↔◌, ◌≡◌};
ghost use Rattle.canonical.specs.Canonical.{canonical_kept};
ghost use Rattle.canonical.specs.Form.{CanonicalForm};
ghost use Rattle.sheets.specs.Sheet.{sheet_kept, sheet_ranges};
ghost use Rattle.coverage.specs.Kept.{counted};
ghost use Rattle.coverage.specs.Output.{written};
ghost use Rattle.coverage.specs.Told.{placing};
ghost use Rattle.ffi_words.specs.Common.{left};
ghost use Rattle.ffi_words.specs.Coverages.{handed, placed_told, output_left};

use ffi_words::coverages::{Places, YzCount};

// 12 where the bytes are no sheet.
#[unsafe(no_mangle)]
pub extern "C" fn yz_coverage_from_sheet(
    sheet: &[u8],
    begins: &mut Places,
    ends: &mut Places,
) -> YzCount
    ensures { handed result begins.new ends.new ≡ placed_told (placing (sheet_ranges sheet.now) begins.old ends.old) }
{
    let r = sheets::place_sheet(sheet, begins, ends);
    ffi_words::coverages::count_written(r)
}

// 12 where the first n places make no lawful sheet, or n is above the limit; then 11.
#[unsafe(no_mangle)]
pub extern "C" fn yz_sheet(n: u64, begins: &Places, ends: &Places, output: &mut [u8]) -> YzCount
    ensures { left result output.new ≡ output_left (written (sheet_kept (counted n begins.now ends.now)) output.old) }
{
    let r = sheets::sheet_of(n as usize, begins, ends, output);
    ffi_words::coverages::count_written(r)
}

// Refused as a sheet is.
#[unsafe(no_mangle)]
pub extern "C" fn yz_canonical(n: u64, begins: &Places, ends: &Places, output: &mut [u8]) -> YzCount
    ensures { left result output.new ≡ output_left (written (canonical_kept (counted n begins.now ends.now)) output.old) }
{
    let r = canonical::canonical_of(n as usize, begins, ends, output);
    ffi_words::coverages::count_written(r)
}

// Whether the bytes are the canonical list of some coverage.
#[unsafe(no_mangle)]
pub extern "C" fn yz_is_canonical(bytes: &[u8]) -> bool
    ensures { (result ≡ true) ↔ CanonicalForm bytes.now }
{
    canonical::form::is_canonical(bytes)
}
