// Headers of address tables: the addresses follow the 8 bytes of a header, or the 16 of one in the 64-bit format, wherever
// it stands.
use super::show;
use section_bytes::endianity::RunTimeEndian;
use std::io;

fn header(
    rt: &impl Print,
    section: &[u8],
    at: usize,
    endian: RunTimeEndian,
    label: &str,
) -> io::Result<()> {
    show::table_header(rt, label, tables::addr::parse_header(section, at, endian))
}

fn little(rt: &impl Print, section: &[u8], label: &str) -> io::Result<()> {
    header(rt, section, 0, RunTimeEndian::Little, label)
}

pub(crate) fn sizes(rt: &impl Print) -> io::Result<()> {
    little(rt, b"\x05\0\0\0\x05\0\x01\0\xaa", "header, size 1:")?;
    little(rt, b"\x06\0\0\0\x05\0\x02\0\xaa\xbb", "header, size 2:")?;
    little(
        rt,
        b"\x0a\0\0\0\x05\0\x03\0\x10\0\0\x20\0\0",
        "header, size 3:",
    )?;
    little(
        rt,
        b"\x04\0\0\0\x05\0\x08\0",
        "header, size 8, no addresses:",
    )?;
    little(
        rt,
        b"\x05\0\0\0\x05\0\x02\0\xaa\xbb",
        "header, a byte behind its unit:",
    )
}

pub(crate) fn wide(rt: &impl Print) -> io::Result<()> {
    little(
        rt,
        b"\xff\xff\xff\xff\x0c\0\0\0\0\0\0\0\x05\0\x08\0\x11\x22\x33\x44\x55\x66\x77\x88",
        "64-bit header, size 8:",
    )?;
    little(
        rt,
        b"\xff\xff\xff\xff\x0a\0\0\0\0\0\0\0\x05\0\x03\0\x10\0\0\x20\0\0",
        "64-bit header, size 3:",
    )?;
    little(
        rt,
        b"\xff\xff\xff\xff\x04\0\0\0\0\0\0\0\x05\0\x01\0",
        "64-bit header, size 1, no addresses:",
    )
}

pub(crate) fn placed(rt: &impl Print) -> io::Result<()> {
    header(
        rt,
        b"\0\x0c\0\0\0\x05\0\x04\0\x10\0\0\0\x20\0\0\0",
        1,
        RunTimeEndian::Little,
        "header at 1:",
    )?;
    header(
        rt,
        b"\0\0\0\xff\xff\xff\xff\0\0\0\0\0\0\0\x0c\0\x05\x08\0\x11\x22\x33\x44\x55\x66\x77\x88",
        3,
        RunTimeEndian::Big,
        "64-bit header at 3, big:",
    )
}

pub(crate) fn refused(rt: &impl Print) -> io::Result<()> {
    little(rt, b"\x03\0\0\0\x05\0\x04", "header without its last byte:")?;
    little(rt, b"\x05\0\0\0\x05\0\x04\0", "header past the section:")?;
    little(rt, b"\x04\0\0\0\x04\0\x04\0", "header, version 4:")?;
    little(rt, b"\x04\0\0\0\x05\0\x05\0", "header, size 5:")?;
    little(rt, b"\x04\0\0\0\x05\0\x04\x01", "header, segments:")?;
    little(
        rt,
        b"\xf0\xff\xff\xff\x05\0\x04\0",
        "header, reserved length:",
    )
}
