// Tables: 12 get_address, 13 the headers of address tables with their entries, 14 the header of a set of lists, 15 and
// 16 get_offset of range and location lists. The table is the section; the numbers are a base and an index.
use super::lines::Call;
use super::show;
use super::show::Refused;
use section_bytes::Span;
use section_bytes::common::{
    DebugAddrBase, DebugAddrIndex, DebugLocListsBase, DebugLocListsIndex, DebugRngListsBase,
    DebugRngListsIndex, Encoding, Format,
};
use section_bytes::endianity::RunTimeEndian;
use std::io;
use tables::addr::{AddrHeader, AddrHeaderIter};
use tables::lists::ListsHeader;

fn get_address(rt: &impl Print, call: Call, table: &[u8]) -> io::Result<()> {
    let size = call.encoding.address_size;
    let base = DebugAddrBase(call.a);
    let index = DebugAddrIndex(call.b);
    let address = tables::addr::get_address(table, size, base, index, call.endian);
    show::value(rt, address)
}

fn get_range_offset(rt: &impl Print, call: Call, table: &[u8]) -> io::Result<()> {
    let base = DebugRngListsBase(call.a);
    let index = DebugRngListsIndex(call.b);
    let offset = tables::rnglists::get_offset(table, call.encoding, base, index, call.endian);
    show::value(rt, offset.map(|offset| offset.0))
}

fn get_location_offset(rt: &impl Print, call: Call, table: &[u8]) -> io::Result<()> {
    let base = DebugLocListsBase(call.a);
    let index = DebugLocListsIndex(call.b);
    let offset = tables::loclists::get_offset(table, call.encoding, base, index, call.endian);
    show::value(rt, offset.map(|offset| offset.0))
}

fn encoding(rt: &impl Print, encoding: Encoding) -> io::Result<()> {
    let bits = match encoding.format {
        Format::Dwarf32 => 32,
        Format::Dwarf64 => 64,
    };
    let version = encoding.version;
    let size = encoding.address_size;
    print!(rt; " format {bits} version {version:x} size {size:x}")
}

fn lists_header(rt: &impl Print, call: Call, table: &[u8]) -> io::Result<()> {
    match ListsHeader::parse(table, 0, call.endian) {
        Ok((header, Span { offset, len })) => {
            let count = header.offset_entry_count;
            print!(rt; "header {:x}", header.size())?;
            encoding(rt, header.encoding)?;
            println!(rt; " count {count:x} rest {offset:x} {len:x}")
        }
        Err(e) => println!(rt; "{}", Refused(e)),
    }
}

// The addresses of a table, each with the bytes that are left behind it.
fn entries(
    rt: &impl Print,
    table: &[u8],
    endian: RunTimeEndian,
    header: AddrHeader,
) -> io::Result<()> {
    let mut walk = header.entries();
    let mut last = false;
    for _ in 0..show::CALLS {
        let (entry, after) = walk.next(table, endian);
        match entry {
            Ok(Some(address)) => print!(rt; "address {address:x}")?,
            Ok(None) => print!(rt; "end")?,
            Err(e) => print!(rt; "{}", Refused(e))?,
        }
        println!(rt; " left {:x}", after.entries.len)?;
        if last {
            return Ok(());
        }
        walk = after;
        last = matches!(entry, Ok(None));
    }
    Ok(())
}

fn table_header(rt: &impl Print, header: AddrHeader) -> io::Result<()> {
    let Span { offset, len } = header.entries;
    print!(rt; "table {:x} {:x}", header.offset.0, header.length)?;
    encoding(rt, header.encoding)?;
    print!(rt; " entries {offset:x} {len:x}")
}

fn walk_headers(rt: &impl Print, table: &[u8], endian: RunTimeEndian) -> io::Result<()> {
    let mut walk = AddrHeaderIter { at: 0 };
    let mut last = false;
    for _ in 0..show::CALLS {
        let (next, after) = walk.next(table, endian);
        match next {
            Ok(Some(header)) => table_header(rt, header)?,
            Ok(None) => print!(rt; "end")?,
            Err(e) => print!(rt; "{}", Refused(e))?,
        }
        println!(rt; " at {:x}", after.at)?;
        if let Ok(Some(header)) = next {
            entries(rt, table, endian, header)?;
        }
        if last {
            return Ok(());
        }
        walk = after;
        last = matches!(next, Ok(None));
    }
    Ok(())
}

pub(crate) fn answer(rt: &impl Print, call: Call, table: &[u8]) -> io::Result<()> {
    match call.what {
        12 => get_address(rt, call, table),
        13 => walk_headers(rt, table, call.endian),
        14 => lists_header(rt, call, table),
        15 => get_range_offset(rt, call, table),
        _ => get_location_offset(rt, call, table),
    }
}
