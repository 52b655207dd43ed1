// Location lists: an entry's bounds, where a default location has 0 and 2^64 - 1, then the place and the length of its expression, 0 and 0
// where it has none.
use super::{encoding, read_list, say, sized_list};
use entries::Lists;
use section_bytes::common::DwarfFileType;
use section_bytes::endianity::RunTimeEndian;
use std::io;

fn location(rt: &impl Print, list: &[u8]) -> io::Result<()> {
    let lists = Lists::Locations(DwarfFileType::Main);
    read_list(rt, &lists, list, 0, encoding(5, 4), RunTimeEndian::Little)
}

fn sized(rt: &impl Print, version: u16, address_size: u8, list: &[u8]) -> io::Result<()> {
    let lists = Lists::Locations(DwarfFileType::Main);
    sized_list(rt, &lists, version, address_size, list)
}

fn split(rt: &impl Print, list: &[u8]) -> io::Result<()> {
    say(rt, b"split, ")?;
    sized_list(rt, &Lists::Locations(DwarfFileType::Dwo), 4, 4, list)
}

fn examples(rt: &impl Print) -> io::Result<()> {
    location(rt, b"\x05\x81\0\x50\0")?;
    location(rt, b"\x05\x01\x50\0")?;
    split(rt, b"\x03\0\x08\0\0\0\x01\0\x50\0")?;
    split(rt, b"\x03\x80\0\x08\0\0\0\x01\0\x50\0")?;
    split(rt, b"\x04\x81\0\x82\0\x01\0\x50\0")
}

// Each number of each kind padded by itself, an expression's length last.
fn kinds(rt: &impl Print) -> io::Result<()> {
    location(rt, b"\x01\0\x01\x80\0\x06\x80\0\x80\0")?;
    location(
        rt,
        b"\x02\x80\0\x01\x01\x50\x02\0\x81\0\x01\x50\x02\0\x01\x81\0\x50",
    )?;
    location(
        rt,
        b"\x03\x80\0\x08\x01\x50\x03\0\x88\0\x01\x50\x03\0\x08\x81\0\x50",
    )?;
    location(
        rt,
        b"\x04\x81\0\x02\x01\x50\x04\x01\x82\0\x01\x50\x04\x01\x02\x81\0\x50",
    )?;
    location(
        rt,
        b"\x02\0\x01\x01\x50\x03\0\x08\x01\x50\x04\x01\x02\x01\x50",
    )?;
    location(rt, b"\x05\x80\0\x05\x02\x80\0\0\x80\0")?;
    location(
        rt,
        b"\x07\x80\0\x80\0\x80\0\x80\0\x01\x50\x07\x10\0\0\0\x20\0\0\0\x81\0\x50",
    )?;
    location(
        rt,
        b"\x08\x80\0\x80\0\x10\x01\x50\x08\x10\0\0\0\x90\0\0\x08\x10\0\0\0\x10\x81\0\x50",
    )?;
    location(
        rt,
        b"\x02\x80\x01\xff\x7f\x01\x50\x03\x80\x01\xff\x7f\x01\x50\x04\x80\x01\xff\x7f\x01\x50",
    )?;
    location(
        rt,
        b"\x02\x80\x01\x80\x80\0\0\x03\x80\x80\0\x80\x02\0\x04\x80\x01\x80\x02\x81\0\x50",
    )?;
    location(
        rt,
        b"\x08\x10\0\0\0\x80\x01\x01\x50\x01\x80\x01\x08\x10\0\0\0\x80\x81\0\x01\x50",
    )?;
    sized(
        rt,
        5,
        3,
        b"\x08\x10\x80\0\x10\0\x08\x10\0\0\x90\0\0\x08\x10\0\0\x10\x80\0",
    )?;
    sized(rt, 4, 2, b"\x01\x80\0\x90\x01\0\x50\xff\xff\x80\0\0\0\0\0")
}

// Up to version 4 kind 3's length has four bytes and an expression's two.
fn splits(rt: &impl Print) -> io::Result<()> {
    split(
        rt,
        b"\x01\x80\0\x02\x80\0\x01\x01\0\x50\x02\0\x81\0\x01\0\x50",
    )?;
    split(rt, b"\x03\0\x80\0\0\0\x01\0\x50\x05\0\0\x05\x01\0\x50")?;
    split(
        rt,
        b"\x03\x80\x01\x80\0\0\0\0\0\x04\x80\x01\x80\x02\x01\0\x50\x03\x80\x80\0\x80\0\0\0\0\0",
    )?;
    split(
        rt,
        b"\x04\x01\x02\x01\0\x50\x04\x81\0\x02\x01\0\x50\x04\x01\x82\0\x01\0\x50",
    )?;
    split(
        rt,
        b"\x07\x80\0\x80\0\x80\0\x80\0\0\0\x08\x80\0\x80\0\x10\x01\0\x50\x08\x10\0\0\0\x90\0\0\0",
    )
}

// An expression of 128 bytes: behind its length in two bytes, of kind 5 and of a bare pair, and in LEB128 of two and of three bytes.
fn long(rt: &impl Print) -> io::Result<()> {
    let mut list = [0u8; 132];
    list[0] = 0x05;
    list[1] = 0x80;
    split(rt, &list)?;
    list[2] = 0x80;
    sized(rt, 4, 1, &list)?;
    list[2] = 0x01;
    location(rt, &list)?;
    list[2] = 0x81;
    location(rt, &list)
}

fn no_entry(rt: &impl Print) -> io::Result<()> {
    location(rt, b"\x05\x82\0\x50")?;
    location(rt, b"\x04\x81\0\x02")?;
    location(rt, b"\x02\x80\0\0\x80\x80\x80\x80\x80\x80\x80\x80\x80\x02")?;
    location(rt, b"\x09\x80\0")?;
    split(rt, b"\x05\x81\0\x50")
}

pub(crate) fn locations(rt: &impl Print) -> io::Result<()> {
    examples(rt)?;
    kinds(rt)?;
    splits(rt)?;
    long(rt)?;
    no_entry(rt)
}
