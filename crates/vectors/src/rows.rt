// The examples of the refusal table, rows 1 to 9.
use super::show;
use entries::loclists::raw_location_entry;
use entries::rnglists::raw_range_entry;
use section_bytes::common::{DebugAddrBase, DebugAddrIndex, DwarfFileType, Encoding, Format};
use section_bytes::endianity::RunTimeEndian;
use section_bytes::reader;
use std::io;
use tables::lists::ListsHeader;

pub(crate) fn encoding(version: u16, address_size: u8) -> Encoding {
    Encoding {
        address_size,
        format: Format::Dwarf32,
        version,
    }
}

pub(crate) fn missing(rt: &impl Print) -> io::Result<()> {
    let p = encoding(5, 4);
    let little = RunTimeEndian::Little;
    let address = [0x10u8, 0x00];
    let read = reader::read_address(&address, 0, 4, little);
    show::read(rt, "row 1, an address:", read)?;
    let cut = [0x06u8, 0x10, 0x00];
    show::range(rt, "row 1, a range:", raw_range_entry(&cut, 0, p, little))?;
    let tenth = [
        0x04u8, 0x80, 0x80, 0x80, 0x80, 0x80, 0x80, 0x80, 0x80, 0x80, 0x02,
    ];
    show::range(rt, "row 2:", raw_range_entry(&tenth, 0, p, little))
}

pub(crate) fn kinds(rt: &impl Print) -> io::Result<()> {
    let p = encoding(5, 4);
    let little = RunTimeEndian::Little;
    show::range(rt, "row 3:", raw_range_entry(&[0x08], 0, p, little))?;
    let nine = raw_location_entry(&[0x09], 0, p, little, DwarfFileType::Main);
    show::location(rt, "row 4:", nine)
}

fn lists_header(rt: &impl Print, label: &str, section: &[u8]) -> io::Result<()> {
    show::lists(
        rt,
        label,
        ListsHeader::parse(section, 0, RunTimeEndian::Little),
    )
}

pub(crate) fn headers(rt: &impl Print) -> io::Result<()> {
    lists_header(rt, "row 5:", b"\x08\0\0\0\x04\0\x04\0\0\0\0\0")?;
    lists_header(rt, "row 6:", b"\x08\0\0\0\x05\0\x05\0\0\0\0\0")?;
    lists_header(rt, "row 7:", b"\x08\0\0\0\x05\0\x04\x01\0\0\0\0")
}

pub(crate) fn lengths(rt: &impl Print) -> io::Result<()> {
    let reserved = [0xf0u8, 0xff, 0xff, 0xff];
    let length = reader::read_initial_length(&reserved, 0, RunTimeEndian::Little);
    show::initial_length(rt, "row 8:", length)?;
    let address = tables::addr::get_address(
        b"",
        8,
        DebugAddrBase(0),
        DebugAddrIndex(0x2000_0000_0000_0000),
        RunTimeEndian::Little,
    );
    show::value(rt, "row 9:", address)?;
    lists_header(rt, "header of lists:", b"\x08\0\0\0\x05\0\x04\0\0\0\0\0")?;
    lists_header(
        rt,
        "header of lists, size 3:",
        b"\x08\0\0\0\x05\0\x03\0\0\0\0\0",
    )
}
