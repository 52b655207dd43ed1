// Lookups of many addresses in a location list.
#![tactic(auto)]

ghost use Rattle.std.specs.Prelude.{◌≡◌};
ghost use Rattle.ffi_words.specs.Common.{endian_in, encoding_of, is_set};
ghost use Rattle.stacks.specs.Stack.{counted, counted_of, lookup_locations};

use ffi_words::common::YzEncoding;
use ffi_words::coverages::YzCount;
use section_bytes::common::LocationListsOffset;
use stacks::answers::Rows;

// The answers of addresses in a location list, each at its address's place; how many entries were read. The list of a .dwo file is
// split.
#[unsafe(no_mangle)]
pub extern "C" fn yz_location_lookups(
    section: &[u8],
    debug_addr: &[u8],
    debug_addr_base: u64,
    encoding: YzEncoding,
    file_type: u32,
    offset: u64,
    base_address: u64,
    addresses: &[u64],
    found: &mut Rows,
) -> YzCount
    ensures { counted result found.new ≡ counted_of (lookup_locations (is_set file_type) (encoding_of encoding) (endian_in encoding) section.now debug_addr.now (record { 0 = debug_addr_base }) offset base_address addresses.now found.old) }
{
    let unit = ffi_words::common::unit_of(encoding, debug_addr, debug_addr_base);
    let file = ffi_words::common::file_of(file_type as u64);
    let r = stacks::lookup_locations(
        section,
        &unit,
        LocationListsOffset(offset),
        base_address,
        file,
        addresses,
        found,
    );
    stacks::answers::count_read(r)
}
