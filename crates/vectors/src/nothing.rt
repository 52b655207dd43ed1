// An empty section, with 2^64 - 1 for every number, or the largest of its type.
use super::rows::encoding;
use super::show;
use section_bytes::common::{
    DebugAddrBase, DebugAddrIndex, DebugLocListsBase, DebugLocListsIndex, DebugRngListsBase,
    DebugRngListsIndex, DwarfFileType, Format,
};
use section_bytes::endianity::RunTimeEndian;
use section_bytes::{Span, address, leb128, reader};
use std::io;
use tables::addr::{AddrEntryIter, AddrHeaderIter};
use tables::lists::ListsHeader;

const NO_BYTES: &[u8] = b"";

const MOST: u64 = u64::MAX;

const FAR: usize = usize::MAX;

pub(crate) fn skips(rt: &impl Print) -> io::Result<()> {
    let s = NO_BYTES;
    show::value(rt, "no bytes, skip:", reader::skip(s, FAR, MOST))?;
    show::split(rt, "no bytes, split:", reader::split(s, FAR, MOST))?;
    show::read(rt, "no bytes, truncate:", reader::truncate(s, FAR, MOST))?;
    let part = reader::part(s, FAR, FAR);
    show::number(rt, "no bytes, part:", part.len() as u64)
}

pub(crate) fn reads(rt: &impl Print) -> io::Result<()> {
    let s = NO_BYTES;
    let little = RunTimeEndian::Little;
    let big = RunTimeEndian::Big;
    show::read(rt, "no bytes, u8:", reader::read_u8(s, FAR))?;
    show::read(rt, "no bytes, u16:", reader::read_u16(s, FAR, little))?;
    show::read(rt, "no bytes, u32:", reader::read_u32(s, FAR, big))?;
    show::read(rt, "no bytes, u64:", reader::read_u64(s, FAR, little))?;
    show::read(
        rt,
        "no bytes, address size:",
        reader::read_address_size(s, FAR),
    )?;
    show::read(
        rt,
        "no bytes, address:",
        reader::read_address(s, FAR, 255, big),
    )?;
    show::read(
        rt,
        "no bytes, word:",
        reader::read_word(s, FAR, Format::Dwarf64, big),
    )
}

pub(crate) fn numbers(rt: &impl Print) -> io::Result<()> {
    show::initial_length(
        rt,
        "no bytes, initial length:",
        reader::read_initial_length(NO_BYTES, FAR, RunTimeEndian::Little),
    )?;
    show::read(rt, "no bytes, LEB128:", leb128::unsigned(NO_BYTES, FAR))?;
    show::number(
        rt,
        "no bytes, sum:",
        address::wrapping_add_sized(MOST, MOST, 255),
    )
}

pub(crate) fn tables(rt: &impl Print) -> io::Result<()> {
    let s = NO_BYTES;
    let big = RunTimeEndian::Big;
    show::lists(
        rt,
        "no bytes, header of lists:",
        ListsHeader::parse(s, FAR, big),
    )?;
    show::table_header(
        rt,
        "no bytes, table header:",
        tables::addr::parse_header(s, FAR, big),
    )?;
    let (header, walk) = AddrHeaderIter { at: FAR }.next(s, big);
    show::next_header(rt, "no bytes, table headers:", header, walk)?;
    let entries = AddrEntryIter {
        entries: Span {
            offset: FAR,
            len: FAR,
        },
        encoding: encoding(65535, 255),
    };
    let (entry, walk) = entries.next(s, big);
    show::next_entry(rt, "no bytes, table entries:", entry, walk)
}

pub(crate) fn rows(rt: &impl Print) -> io::Result<()> {
    let s = NO_BYTES;
    let p = encoding(65535, 255);
    let big = RunTimeEndian::Big;
    let address = tables::addr::get_address(s, 255, DebugAddrBase(MOST), DebugAddrIndex(MOST), big);
    show::value(rt, "no bytes, table row:", address)?;
    let range = tables::rnglists::get_offset(
        s,
        p,
        DebugRngListsBase(MOST),
        DebugRngListsIndex(MOST),
        big,
    );
    show::value(rt, "no bytes, range offset:", range.map(|offset| offset.0))?;
    let location = tables::loclists::get_offset(
        s,
        p,
        DebugLocListsBase(MOST),
        DebugLocListsIndex(MOST),
        big,
    );
    show::value(
        rt,
        "no bytes, location offset:",
        location.map(|offset| offset.0),
    )
}

pub(crate) fn lists(rt: &impl Print) -> io::Result<()> {
    let p = encoding(65535, 255);
    let big = RunTimeEndian::Big;
    show::range(
        rt,
        "no bytes, range:",
        entries::rnglists::raw_range_entry(NO_BYTES, FAR, p, big),
    )?;
    show::location(
        rt,
        "no bytes, location:",
        entries::loclists::raw_location_entry(NO_BYTES, FAR, p, big, DwarfFileType::Dwo),
    )
}
