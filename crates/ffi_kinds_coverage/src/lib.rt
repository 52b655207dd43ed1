// Coverage, its runs alone, and canonical list of a range list by a table of kind numbers.
#![tactic(auto)]

ghost use Rattle.std.specs.Prelude.{◌≡◌};
ghost use Rattle.coverage.specs.Covered.{range_list_by, source, coverage_of};
ghost use Rattle.canonical.specs.Canonical.{canonical_of};
ghost use Rattle.coverage.specs.Output.{written};
ghost use Rattle.coverage.specs.Told.{placing, putting};
ghost use Rattle.ffi_words.specs.Common.{endian_in, encoding_of, left};
ghost use Rattle.ffi_words.specs.Coverages.{handed, placed_told, output_left};

use ffi_words::common::YzEncoding;
use ffi_words::coverages::{Places, YzCount};
use section_bytes::common::RangeListsOffset;

// The refusals of opening, then the first of a walk's refusal and 10.
#[unsafe(no_mangle)]
pub extern "C" fn yz_range_coverage_by(
    section: &[u8],
    debug_addr: &[u8],
    debug_addr_base: u64,
    encoding: YzEncoding,
    offset: u64,
    base_address: u64,
    kinds: &[u8],
    begins: &mut Places,
    ends: &mut Places,
) -> YzCount
    ensures { handed result begins.new ends.new ≡ placed_told (placing (coverage_of (source (range_list_by kinds.now) (encoding_of encoding) (endian_in encoding) section.now offset base_address debug_addr.now (record { 0 = debug_addr_base }))) begins.old ends.old) }
{
    let unit = ffi_words::common::unit_of(encoding, debug_addr, debug_addr_base);
    let r = coverage::place::place_ranges_by(
        section,
        &unit,
        RangeListsOffset(offset),
        base_address,
        kinds,
        begins,
        ends,
    );
    ffi_words::coverages::count_written(r)
}

// The refusals of the coverage, then 11.
#[unsafe(no_mangle)]
pub extern "C" fn yz_range_runs_by(
    section: &[u8],
    debug_addr: &[u8],
    debug_addr_base: u64,
    encoding: YzEncoding,
    offset: u64,
    base_address: u64,
    kinds: &[u8],
    begins: &mut [u64],
    ends: &mut [u64],
) -> YzCount
    ensures { handed result begins.new ends.new ≡ placed_told (putting (coverage_of (source (range_list_by kinds.now) (encoding_of encoding) (endian_in encoding) section.now offset base_address debug_addr.now (record { 0 = debug_addr_base }))) begins.old ends.old) }
{
    let unit = ffi_words::common::unit_of(encoding, debug_addr, debug_addr_base);
    let r = coverage::place::runs_of_ranges_by(
        section,
        &unit,
        RangeListsOffset(offset),
        base_address,
        kinds,
        begins,
        ends,
    );
    ffi_words::coverages::count_written(r)
}

// The refusals of the coverage, then 11.
#[unsafe(no_mangle)]
pub extern "C" fn yz_range_canonical_by(
    section: &[u8],
    debug_addr: &[u8],
    debug_addr_base: u64,
    encoding: YzEncoding,
    offset: u64,
    base_address: u64,
    kinds: &[u8],
    output: &mut [u8],
) -> YzCount
    ensures { left result output.new ≡ output_left (written (canonical_of (source (range_list_by kinds.now) (encoding_of encoding) (endian_in encoding) section.now offset base_address debug_addr.now (record { 0 = debug_addr_base }))) output.old) }
{
    let unit = ffi_words::common::unit_of(encoding, debug_addr, debug_addr_base);
    let r = canonical::of_list::canonical_ranges_by(
        section,
        &unit,
        RangeListsOffset(offset),
        base_address,
        kinds,
        output,
    );
    ffi_words::coverages::count_written(r)
}
