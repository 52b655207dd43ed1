// Lookup in a range list.
#![tactic(auto)]

ghost use Rattle.std.specs.Prelude.{◌≡◌};
ghost use Rattle.lookups.specs.Lookup.{lookup_range};
ghost use Rattle.ffi_words.specs.Common.{endian_in, encoding_of};
ghost use Rattle.ffi_words.specs.Ranges.{range_found};

use ffi_words::common::YzEncoding;
use ffi_words::ranges::YzRange;
use section_bytes::common::RangeListsOffset;

#[unsafe(no_mangle)]
pub extern "C" fn yz_range_lookup(
    section: &[u8],
    debug_addr: &[u8],
    debug_addr_base: u64,
    encoding: YzEncoding,
    offset: u64,
    base_address: u64,
    address: u64,
) -> YzRange
    ensures { result ≡ range_found (lookup_range (encoding_of encoding) (endian_in encoding) section.now debug_addr.now (record { 0 = debug_addr_base }) offset base_address address) }
{
    let unit = ffi_words::common::unit_of(encoding, debug_addr, debug_addr_base);
    let r = lookups::lookup_range(
        section,
        &unit,
        RangeListsOffset(offset),
        base_address,
        address,
    );
    ffi_words::ranges::range_found(r)
}
