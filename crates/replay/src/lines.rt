// A call as a line: nine numbers in hexadecimal, then three sections, each a colon and the bytes in hexadecimal. Each
// of the twelve has one separator behind it, the last one the line's end.
//
//   what, address size, version, big-endian, 64-bit, four more numbers, old section, new section, table
//
// The modules that answer say what the numbers and sections mean.
ghost use Rattle.std.specs.Prelude.{◌<◌, IfSome};

use section_bytes::common::{Encoding, Format};
use section_bytes::endianity::RunTimeEndian;

// The bytes that a section has at most.
const ROOM: usize = 256;

#[derive(Clone, Copy)]
pub struct Call {
    pub what: u64,
    pub encoding: Encoding,
    pub endian: RunTimeEndian,
    pub a: u64,
    pub b: u64,
    pub c: u64,
    pub d: u64,
}

// A section's bytes, which stand at the front of the room.
#[derive(Clone, Copy)]
pub struct Section {
    room: [u8; ROOM],
    len: usize,
}

impl Section {
    pub(crate) fn bytes(&self) -> &[u8] {
        section_bytes::reader::part(&self.room, 0, self.len)
    }
}

// A call, and the sections that it may read.
#[derive(Clone, Copy)]
pub struct Line {
    pub call: Call,
    pub old: Section,
    pub new: Section,
    pub table: Section,
}

// What stands before the next separator, and what behind it.
fn field(text: &[u8]) -> Option<(&[u8], &[u8])> {
    let end = text.iter().position(|&x| x <= b' ')?;
    Some((&text[..end], &text[end + 1..]))
}

fn digit(x: u8) -> Option<u8>
    ensures { IfSome result (λ value. value < 16) }
{
    match x {
        b'0'..=b'9' => Some(x - b'0'),
        b'a'..=b'f' => Some(x - b'a' + 10),
        _ => None,
    }
}

// The number that begins a text, and what stands behind it.
fn number(text: &[u8]) -> Option<(u64, &[u8])> {
    let (digits, rest) = field(text)?;
    if digits.is_empty() {
        return None;
    }
    let mut value: u64 = 0;
    for &x in digits {
        value = value.checked_mul(16)?.checked_add(u64::from(digit(x)?))?;
    }
    Some((value, rest))
}

fn byte(pair: &[u8]) -> Option<u8> {
    let [high, low] = pair else {
        return None;
    };
    Some(digit(*high)? * 16 + digit(*low)?)
}

// The section that begins a text, and what stands behind it.
fn octets(text: &[u8]) -> Option<(Section, &[u8])> {
    let (field, rest) = field(text)?;
    let [b':', digits @ ..] = field else {
        return None;
    };
    let len = digits.len() / 2;
    if digits.len() % 2 != 0 || ROOM < len {
        return None;
    }
    let mut room = [0u8; ROOM];
    for (place, pair) in room.iter_mut().zip(digits.chunks_exact(2)) {
        *place = byte(pair)?;
    }
    Some((Section { room, len }, rest))
}

fn endian_of(big: u64) -> RunTimeEndian {
    if big == 0 {
        RunTimeEndian::Little
    } else {
        RunTimeEndian::Big
    }
}

fn format_of(dwarf64: u64) -> Format {
    if dwarf64 == 0 {
        Format::Dwarf32
    } else {
        Format::Dwarf64
    }
}

// The call that a line makes; none where the line is no call.
pub(crate) fn parse(line: &[u8]) -> Option<Line> {
    let mut numbers = [0u64; 9];
    let mut rest = line;
    for place in &mut numbers {
        let (value, after) = number(rest)?;
        *place = value;
        rest = after;
    }
    let [what, size, version, big, dwarf64, a, b, c, d] = numbers;
    let encoding = Encoding {
        address_size: u8::try_from(size).ok()?,
        format: format_of(dwarf64),
        version: u16::try_from(version).ok()?,
    };
    let call = Call {
        what,
        encoding,
        endian: endian_of(big),
        a,
        b,
        c,
        d,
    };
    let (old, rest) = octets(rest)?;
    let (new, rest) = octets(rest)?;
    let (table, rest) = octets(rest)?;
    if !rest.is_empty() {
        return None;
    }
    Some(Line {
        call,
        old,
        new,
        table,
    })
}
