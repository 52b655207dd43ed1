// Coverage, its runs alone, and canonical list of a range list, and the coverage that a canonical list tells.
#![tactic(auto)]

ghost use Rattle.std.specs.Prelude.{◌≡◌, []};
ghost use Rattle.section_bytes.specs.declared.common.Format.TheVariants.{Dwarf32};
ghost use Rattle.coverage.specs.Covered.{range_list, source, coverage_of, read_back};
ghost use Rattle.canonical.specs.Canonical.{canonical_of};
ghost use Rattle.coverage.specs.Output.{written};
ghost use Rattle.coverage.specs.Told.{placing, putting};
ghost use Rattle.ffi_words.specs.Common.{endian_in, encoding_of, left};
ghost use Rattle.ffi_words.specs.Coverages.{handed, placed_told, output_left};

use ffi_words::common::YzEncoding;
use ffi_words::coverages::{Places, YzCount};
use section_bytes::common::RangeListsOffset;

// The refusals of opening, then the first of a walk's refusal and 10.
#[unsafe(no_mangle)]
pub extern "C" fn yz_range_coverage(
    section: &[u8],
    debug_addr: &[u8],
    debug_addr_base: u64,
    encoding: YzEncoding,
    offset: u64,
    base_address: u64,
    begins: &mut Places,
    ends: &mut Places,
) -> YzCount
    ensures { handed result begins.new ends.new ≡ placed_told (placing (coverage_of (source range_list (encoding_of encoding) (endian_in encoding) section.now offset base_address debug_addr.now (record { 0 = debug_addr_base }))) begins.old ends.old) }
{
    let unit = ffi_words::common::unit_of(encoding, debug_addr, debug_addr_base);
    let r = coverage::place::place_ranges(
        section,
        &unit,
        RangeListsOffset(offset),
        base_address,
        begins,
        ends,
    );
    ffi_words::coverages::count_written(r)
}

// The refusals of the coverage, then 11.
#[unsafe(no_mangle)]
pub extern "C" fn yz_range_runs(
    section: &[u8],
    debug_addr: &[u8],
    debug_addr_base: u64,
    encoding: YzEncoding,
    offset: u64,
    base_address: u64,
    begins: &mut [u64],
    ends: &mut [u64],
) -> YzCount
    ensures { handed result begins.new ends.new ≡ placed_told (putting (coverage_of (source range_list (encoding_of encoding) (endian_in encoding) section.now offset base_address debug_addr.now (record { 0 = debug_addr_base }))) begins.old ends.old) }
{
    let unit = ffi_words::common::unit_of(encoding, debug_addr, debug_addr_base);
    let r = coverage::place::runs_of_ranges(
        section,
        &unit,
        RangeListsOffset(offset),
        base_address,
        begins,
        ends,
    );
    ffi_words::coverages::count_written(r)
}

// The refusals of the coverage, then 11.
#[unsafe(no_mangle)]
pub extern "C" fn yz_range_canonical(
    section: &[u8],
    debug_addr: &[u8],
    debug_addr_base: u64,
    encoding: YzEncoding,
    offset: u64,
    base_address: u64,
    output: &mut [u8],
) -> YzCount
    ensures { left result output.new ≡ output_left (written (canonical_of (source range_list (encoding_of encoding) (endian_in encoding) section.now offset base_address debug_addr.now (record { 0 = debug_addr_base }))) output.old) }
{
    let unit = ffi_words::common::unit_of(encoding, debug_addr, debug_addr_base);
    let r = canonical::of_list::canonical_ranges(
        section,
        &unit,
        RangeListsOffset(offset),
        base_address,
        output,
    );
    ffi_words::coverages::count_written(r)
}

// The bytes are read from their begin as a range list of DWARF 5, little-endian, with addresses of 8 bytes.
#[unsafe(no_mangle)]
pub extern "C" fn yz_coverage_from_canonical(
    bytes: &[u8],
    begins: &mut Places,
    ends: &mut Places,
) -> YzCount
    ensures { handed result begins.new ends.new ≡ placed_told (placing (coverage_of (read_back Dwarf32 bytes.now 0 [] (record { 0 = 0 }))) begins.old ends.old) }
{
    let r = coverage::place::place_canonical(bytes, begins, ends);
    ffi_words::coverages::count_written(r)
}
