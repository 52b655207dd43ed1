// Examples that are not refused.
use super::rows::encoding;
use super::show;
use entries::loclists::raw_location_entry;
use entries::rnglists::raw_range_entry;
use section_bytes::common::{
    DebugAddrBase, DebugAddrIndex, DebugLocListsBase, DebugLocListsIndex, DebugRngListsBase,
    DebugRngListsIndex, DwarfFileType,
};
use section_bytes::endianity::RunTimeEndian;
use section_bytes::{address, leb128, reader};
use std::io;
use tables::addr::{AddrHeader, AddrHeaderIter};

fn row(rt: &impl Print, table: &[u8], size: u8, label: &str, index: u64) -> io::Result<()> {
    let address = tables::addr::get_address(
        table,
        size,
        DebugAddrBase(8),
        DebugAddrIndex(index),
        RunTimeEndian::Little,
    );
    show::value(rt, label, address)
}

fn addresses_of(rt: &impl Print, table: &[u8], header: AddrHeader) -> io::Result<()> {
    let mut walk = header.entries();
    for label in ["table entry:", "table entry:", "table entries:"] {
        let (entry, after) = walk.next(table, RunTimeEndian::Little);
        show::next_entry(rt, label, entry, after)?;
        walk = after;
    }
    Ok(())
}

fn headers_of(rt: &impl Print, table: &[u8]) -> io::Result<()> {
    let (first, walk) = AddrHeaderIter { at: 0 }.next(table, RunTimeEndian::Little);
    let Ok(Some(header)) = first else {
        return println!(rt; "no table");
    };
    show::table_header(rt, "table header:", Ok((header, walk.at)))?;
    let (second, after) = walk.next(table, RunTimeEndian::Little);
    show::next_header(rt, "table headers:", second, after)?;
    addresses_of(rt, table, header)
}

pub(crate) fn table(rt: &impl Print) -> io::Result<()> {
    let table = b"\x0c\0\0\0\x05\0\x04\0\x10\0\0\0\x20\0\0\0";
    headers_of(rt, table)?;
    row(rt, table, 4, "table row 0:", 0)?;
    row(rt, table, 4, "table row 1:", 1)?;
    row(rt, table, 4, "table row 2:", 2)
}

pub(crate) fn table_of_three(rt: &impl Print) -> io::Result<()> {
    let table = b"\x0a\0\0\0\x05\0\x03\0\x10\0\0\x20\0\0";
    headers_of(rt, table)?;
    row(rt, table, 3, "size 3, table row 0:", 0)?;
    row(rt, table, 3, "size 3, table row 1:", 1)?;
    row(rt, table, 3, "size 3, table row 2:", 2)?;
    row(
        rt,
        table,
        3,
        "size 3, product 2^64 - 1:",
        6148914691236517205,
    )?;
    row(
        rt,
        table,
        3,
        "size 3, product 2^64 + 2:",
        6148914691236517206,
    )
}

fn range_offset(rt: &impl Print, section: &[u8], label: &str, index: u64) -> io::Result<()> {
    let offset = tables::rnglists::get_offset(
        section,
        encoding(5, 4),
        DebugRngListsBase(4),
        DebugRngListsIndex(index),
        RunTimeEndian::Little,
    );
    show::value(rt, label, offset.map(|offset| offset.0))
}

pub(crate) fn offsets(rt: &impl Print) -> io::Result<()> {
    let section = [0u8, 0, 0, 0, 0x08, 0, 0, 0, 0x10, 0, 0, 0];
    range_offset(rt, &section, "range offset 0:", 0)?;
    range_offset(rt, &section, "range offset 1:", 1)?;
    range_offset(rt, &section, "range offset 2:", 2)?;
    let offset = tables::loclists::get_offset(
        &section,
        encoding(5, 4),
        DebugLocListsBase(4),
        DebugLocListsIndex(1),
        RunTimeEndian::Little,
    );
    show::value(rt, "location offset 1:", offset.map(|offset| offset.0))
}

fn tenth(rt: &impl Print, label: &str, byte: u8) -> io::Result<()> {
    let s = [0x80u8, 0x80, 0x80, 0x80, 0x80, 0x80, 0x80, 0x80, 0x80, byte];
    show::read(rt, label, leb128::unsigned(&s, 0))
}

pub(crate) fn numbers(rt: &impl Print) -> io::Result<()> {
    tenth(rt, "LEB128, tenth byte 01:", 0x01)?;
    tenth(rt, "LEB128, tenth byte 00:", 0x00)?;
    tenth(rt, "LEB128, tenth byte 02:", 0x02)
}

pub(crate) fn orders(rt: &impl Print) -> io::Result<()> {
    let s = [0x01u8, 0x02, 0x03, 0x04, 0x05, 0x06, 0x07, 0x08];
    let little = RunTimeEndian::Little;
    let big = RunTimeEndian::Big;
    show::read(rt, "1 byte:", reader::read_u8(&s, 0))?;
    show::read(rt, "2 bytes, little:", reader::read_u16(&s, 0, little))?;
    show::read(rt, "2 bytes, big:", reader::read_u16(&s, 0, big))?;
    show::read(
        rt,
        "3 bytes, little:",
        reader::read_address(&s, 0, 3, little),
    )?;
    show::read(rt, "3 bytes, big:", reader::read_address(&s, 0, 3, big))?;
    show::read(rt, "4 bytes, little:", reader::read_u32(&s, 0, little))?;
    show::read(rt, "4 bytes, big:", reader::read_u32(&s, 0, big))?;
    show::read(rt, "8 bytes, little:", reader::read_u64(&s, 0, little))?;
    show::read(rt, "8 bytes, big:", reader::read_u64(&s, 0, big))
}

pub(crate) fn addresses(rt: &impl Print) -> io::Result<()> {
    show::number(rt, "ones, size 1:", address::ones_sized(1))?;
    show::number(rt, "ones, size 3:", address::ones_sized(3))?;
    show::number(rt, "ones, size 8:", address::ones_sized(8))?;
    show::number(rt, "tombstone bound, size 1:", address::min_tombstone(1))?;
    show::number(rt, "tombstone bound, size 3:", address::min_tombstone(3))?;
    show::number(rt, "tombstone bound, size 8:", address::min_tombstone(8))?;
    show::number(
        rt,
        "sum, size 3:",
        address::wrapping_add_sized(0xffff00, 0x110, 3),
    )?;
    show::number(
        rt,
        "sum, size 4:",
        address::wrapping_add_sized(0xffffff00, 0x110, 4),
    )
}

fn expression_byte(rt: &impl Print, s: &[u8]) -> io::Result<()> {
    print!(rt; "its bytes:")?;
    for byte in reader::part(s, 2, 1) {
        print!(rt; " {byte}")?;
    }
    println!(rt)
}

pub(crate) fn entries(rt: &impl Print) -> io::Result<()> {
    let p = encoding(5, 4);
    let little = RunTimeEndian::Little;
    let start_end = [0x06u8, 0x10, 0, 0, 0, 0x20, 0, 0, 0, 0];
    show::range(rt, "range:", raw_range_entry(&start_end, 0, p, little))?;
    show::range(rt, "range:", raw_range_entry(&start_end, 9, p, little))?;
    let default = [0x05u8, 0x01, 0x50, 0x00];
    let location = raw_location_entry(&default, 0, p, little, DwarfFileType::Main);
    show::location(rt, "location:", location)?;
    expression_byte(rt, &default)
}

pub(crate) fn split(rt: &impl Print) -> io::Result<()> {
    let split = [0x03u8, 0x00, 0x08, 0, 0, 0, 0x01, 0x00, 0x50, 0x00];
    let p = encoding(4, 4);
    let location = raw_location_entry(&split, 0, p, RunTimeEndian::Little, DwarfFileType::Dwo);
    show::location(rt, "split location:", location)
}

pub(crate) fn pairs(rt: &impl Print) -> io::Result<()> {
    let pairs = [0xffu8, 0xff, 0x00, 0x20, 0x01, 0x00, 0x03, 0x00, 0, 0, 0, 0];
    let p = encoding(4, 2);
    for at in [0, 4, 8] {
        let pair = raw_range_entry(&pairs, at, p, RunTimeEndian::Little);
        show::range(rt, "pair:", pair)?;
    }
    Ok(())
}
