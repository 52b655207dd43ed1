// Where a value lived at an address: a split location list of DWARF 4, its address table, and a lookup.
#![tactic(auto)]

use lists::{LocationListEntry, Unit};
use section_bytes::common::{DebugAddrBase, DwarfFileType, Encoding, Format, LocationListsOffset};
use section_bytes::endianity::RunTimeEndian;
use std::io;

fn print_bytes(rt: &impl Print, bytes: &[u8]) -> io::Result<()> {
    for byte in bytes {
        print!(rt; " {byte:02x}")?;
    }
    println!(rt)
}

fn look_up(rt: &impl Print, debug_loc: &[u8], debug_addr: &[u8], address: u64) -> io::Result<()> {
    let unit = Unit {
        encoding: Encoding {
            address_size: 4,
            format: Format::Dwarf32,
            version: 4,
        },
        endian: RunTimeEndian::Little,
        debug_addr,
        debug_addr_base: DebugAddrBase(8),
    };
    match lookups::lookup_location(
        debug_loc,
        &unit,
        LocationListsOffset(0),
        0,
        DwarfFileType::Dwo,
        address,
    ) {
        Ok(Some(LocationListEntry { range, data })) => {
            print!(rt; "{:08x} to {:08x}, expression", range.begin, range.end)?;
            print_bytes(rt, lists::loclists::expression(debug_loc, data))
        }
        Ok(None) => println!(rt; "not there"),
        Err(_) => println!(rt; "refused"),
    }
}

fn main(rt: HostRuntime) -> io::Result<()> {
    let debug_loc = [0x03u8, 0x00, 0x08, 0x00, 0x00, 0x00, 0x01, 0x00, 0x50, 0x00];
    let debug_addr = [
        0x0cu8, 0x00, 0x00, 0x00, 0x05, 0x00, 0x04, 0x00, 0x10, 0x00, 0x00, 0x00, 0x20, 0x00, 0x00,
        0x00,
    ];
    look_up(&rt, &debug_loc, &debug_addr, 0x12)?;
    look_up(&rt, &debug_loc, &debug_addr, 0x18)?;
    look_up(&rt, &debug_loc[..7], &debug_addr, 0x12)
}
