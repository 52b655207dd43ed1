// Coverage, its runs alone, and canonical list of a location list. The list of a .dwo file is split.
#![tactic(auto)]

ghost use Rattle.std.specs.Prelude.{◌≡◌};
ghost use Rattle.coverage.specs.Covered.{location_list, source, coverage_of};
ghost use Rattle.canonical.specs.Canonical.{canonical_of};
ghost use Rattle.coverage.specs.Output.{written};
ghost use Rattle.coverage.specs.Told.{placing, putting};
ghost use Rattle.ffi_words.specs.Common.{endian_in, encoding_of, is_set, left};
ghost use Rattle.ffi_words.specs.Coverages.{handed, placed_told, output_left};

use ffi_words::common::YzEncoding;
use ffi_words::coverages::{Places, YzCount};
use section_bytes::common::LocationListsOffset;

// The refusals of opening, then the first of a walk's refusal and 10.
#[unsafe(no_mangle)]
pub extern "C" fn yz_location_coverage(
    section: &[u8],
    debug_addr: &[u8],
    debug_addr_base: u64,
    encoding: YzEncoding,
    file_type: u32,
    offset: u64,
    base_address: u64,
    begins: &mut Places,
    ends: &mut Places,
) -> YzCount
    ensures { handed result begins.new ends.new ≡ placed_told (placing (coverage_of (source (location_list (is_set file_type)) (encoding_of encoding) (endian_in encoding) section.now offset base_address debug_addr.now (record { 0 = debug_addr_base }))) begins.old ends.old) }
{
    let unit = ffi_words::common::unit_of(encoding, debug_addr, debug_addr_base);
    let file = ffi_words::common::file_of(file_type as u64);
    let r = coverage::place::place_locations(
        section,
        &unit,
        LocationListsOffset(offset),
        base_address,
        file,
        begins,
        ends,
    );
    ffi_words::coverages::count_written(r)
}

// The refusals of the coverage, then 11.
#[unsafe(no_mangle)]
pub extern "C" fn yz_location_runs(
    section: &[u8],
    debug_addr: &[u8],
    debug_addr_base: u64,
    encoding: YzEncoding,
    file_type: u32,
    offset: u64,
    base_address: u64,
    begins: &mut [u64],
    ends: &mut [u64],
) -> YzCount
    ensures { handed result begins.new ends.new ≡ placed_told (putting (coverage_of (source (location_list (is_set file_type)) (encoding_of encoding) (endian_in encoding) section.now offset base_address debug_addr.now (record { 0 = debug_addr_base }))) begins.old ends.old) }
{
    let unit = ffi_words::common::unit_of(encoding, debug_addr, debug_addr_base);
    let file = ffi_words::common::file_of(file_type as u64);
    let r = coverage::place::runs_of_locations(
        section,
        &unit,
        LocationListsOffset(offset),
        base_address,
        file,
        begins,
        ends,
    );
    ffi_words::coverages::count_written(r)
}

// The refusals of the coverage, then 11.
#[unsafe(no_mangle)]
pub extern "C" fn yz_location_canonical(
    section: &[u8],
    debug_addr: &[u8],
    debug_addr_base: u64,
    encoding: YzEncoding,
    file_type: u32,
    offset: u64,
    base_address: u64,
    output: &mut [u8],
) -> YzCount
    ensures { left result output.new ≡ output_left (written (canonical_of (source (location_list (is_set file_type)) (encoding_of encoding) (endian_in encoding) section.now offset base_address debug_addr.now (record { 0 = debug_addr_base }))) output.old) }
{
    let unit = ffi_words::common::unit_of(encoding, debug_addr, debug_addr_base);
    let file = ffi_words::common::file_of(file_type as u64);
    let r = canonical::of_list::canonical_locations(
        section,
        &unit,
        LocationListsOffset(offset),
        base_address,
        file,
        output,
    );
    ffi_words::coverages::count_written(r)
}
