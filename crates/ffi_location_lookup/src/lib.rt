// Lookup in a location list.
#![tactic(auto)]

ghost use Rattle.std.specs.Prelude.{◌≡◌};
ghost use Rattle.lookups.specs.Lookup.{lookup_location};
ghost use Rattle.ffi_words.specs.Common.{endian_in, encoding_of, is_set};
ghost use Rattle.ffi_words.specs.Locations.{location_found};

use ffi_words::common::YzEncoding;
use ffi_words::locations::YzLocation;
use section_bytes::common::LocationListsOffset;

// The list of a .dwo file is split.
#[unsafe(no_mangle)]
pub extern "C" fn yz_location_lookup(
    section: &[u8],
    debug_addr: &[u8],
    debug_addr_base: u64,
    encoding: YzEncoding,
    file_type: u32,
    offset: u64,
    base_address: u64,
    address: u64,
) -> YzLocation
    ensures { result ≡ location_found (lookup_location (is_set file_type) (encoding_of encoding) (endian_in encoding) section.now debug_addr.now (record { 0 = debug_addr_base }) offset base_address address) }
{
    let unit = ffi_words::common::unit_of(encoding, debug_addr, debug_addr_base);
    let file = ffi_words::common::file_of(file_type as u64);
    let r = lookups::lookup_location(
        section,
        &unit,
        LocationListsOffset(offset),
        base_address,
        file,
        address,
    );
    ffi_words::locations::location_found(r)
}
