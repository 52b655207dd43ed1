// Reads at the start of the table and sums: 17 LEB128, 18 the fixed widths and the parts, with the first number as the
// count, 19 the sums of the first two numbers, 20 the default bases.
use super::lines::Call;
use super::show;
use super::show::Refused;
use section_bytes::common::{DwarfFileType, Encoding, Format};
use section_bytes::endianity::RunTimeEndian;
use section_bytes::{Read, Span, UnitLength, address, leb128, reader};
use std::io;

fn initial_length(rt: &impl Print, answer: Read<UnitLength>) -> io::Result<()> {
    match answer {
        Ok((UnitLength { length, format }, after)) => {
            let width = format.word_size();
            println!(rt; "length {length:x} {width:x} {after:x}")
        }
        Err(e) => println!(rt; "{}", Refused(e)),
    }
}

fn split(rt: &impl Print, answer: Read<Span>) -> io::Result<()> {
    match answer {
        Ok((Span { offset, len }, after)) => println!(rt; "part {offset:x} {len:x} {after:x}"),
        Err(e) => println!(rt; "{}", Refused(e)),
    }
}

fn widths(rt: &impl Print, s: &[u8], endian: RunTimeEndian) -> io::Result<()> {
    show::read(rt, reader::read_u8(s, 0))?;
    show::read(rt, reader::read_u16(s, 0, endian))?;
    show::read(rt, reader::read_u32(s, 0, endian))?;
    show::read(rt, reader::read_u64(s, 0, endian))
}

fn words(rt: &impl Print, s: &[u8], size: u8, endian: RunTimeEndian) -> io::Result<()> {
    show::read(rt, reader::read_address(s, 0, size, endian))?;
    show::read(rt, reader::read_address_size(s, 0))?;
    show::read(rt, reader::read_offset(s, 0, Format::Dwarf32, endian))?;
    show::read(rt, reader::read_offset(s, 0, Format::Dwarf64, endian))?;
    initial_length(rt, reader::read_initial_length(s, 0, endian))
}

fn parts(rt: &impl Print, s: &[u8], count: u64) -> io::Result<()> {
    show::value(rt, reader::skip(s, 0, count).map(|at| at as u64))?;
    split(rt, reader::split(s, 0, count))?;
    show::read(rt, reader::truncate(s, 0, count))
}

fn reads(rt: &impl Print, s: &[u8], call: Call) -> io::Result<()> {
    widths(rt, s, call.endian)?;
    words(rt, s, call.encoding.address_size, call.endian)?;
    parts(rt, s, call.a)
}

fn sums(rt: &impl Print, call: Call) -> io::Result<()> {
    let size = call.encoding.address_size;
    show::number(rt, address::wrapping_add_sized(call.a, call.b, size))?;
    show::number(rt, address::min_tombstone(size))?;
    show::number(rt, address::ones_sized(size))
}

fn bases(rt: &impl Print, encoding: Encoding, file_type: DwarfFileType) -> io::Result<()> {
    let ranges = tables::rnglists::default_for_encoding_and_file(encoding, file_type);
    let locations = tables::loclists::default_for_encoding_and_file(encoding, file_type);
    println!(rt; "bases {:x} {:x}", ranges.0, locations.0)
}

// False where there is no such call.
pub(crate) fn answer(rt: &impl Print, call: Call, s: &[u8]) -> io::Result<bool> {
    match call.what {
        17 => show::read(rt, leb128::unsigned(s, 0))?,
        18 => reads(rt, s, call)?,
        19 => sums(rt, call)?,
        20 => {
            bases(rt, call.encoding, DwarfFileType::Main)?;
            bases(rt, call.encoding, DwarfFileType::Dwo)?;
        }
        _ => {
            return Ok(false);
        }
    }
    Ok(true)
}
