// Lookups of many addresses in a range list by a table of kind numbers.
#![tactic(auto)]

ghost use Rattle.std.specs.Prelude.{◌≡◌};
ghost use Rattle.ffi_words.specs.Common.{endian_in, encoding_of};
ghost use Rattle.stacks.specs.Stack.{counted, counted_of, lookup_ranges_by};

use ffi_words::common::YzEncoding;
use ffi_words::coverages::YzCount;
use section_bytes::common::RangeListsOffset;
use stacks::answers::Rows;

// The answers of addresses in a range list by a table of kind numbers, each at its address's place; how many entries were read.
#[unsafe(no_mangle)]
pub extern "C" fn yz_range_lookups_by(
    section: &[u8],
    debug_addr: &[u8],
    debug_addr_base: u64,
    encoding: YzEncoding,
    offset: u64,
    base_address: u64,
    kinds: &[u8],
    addresses: &[u64],
    found: &mut Rows,
) -> YzCount
    ensures { counted result found.new ≡ counted_of (lookup_ranges_by kinds.now (encoding_of encoding) (endian_in encoding) section.now debug_addr.now (record { 0 = debug_addr_base }) offset base_address addresses.now found.old) }
{
    let unit = ffi_words::common::unit_of(encoding, debug_addr, debug_addr_base);
    let r = stacks::lookup_ranges_by(
        section,
        &unit,
        RangeListsOffset(offset),
        base_address,
        kinds,
        addresses,
        found,
    );
    stacks::answers::count_read(r)
}
