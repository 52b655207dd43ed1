// Marks set and returned to among calls of next, on range lists and on location lists. The file stdout has the answers by
// docs/SCOPE.md: what each call comes to and, in parentheses, the walk then by its place, base address and count. Behind a location's
// range the place and the length of its expression stand. All is hexadecimal but the number of a refusal, behind which its value stands,
// 0 where it has none.
#![tactic(auto)]

use Call::{Next, Return, Set};
use entries::Lists;
use lists::{LocationListEntry, Range, Unit, Walk};
use marks::MarkedWalk;
use section_bytes::common::{
    DebugAddrBase, DwarfFileType, Encoding, Format, LocationListsOffset, RangeListsOffset,
};
use section_bytes::endianity::RunTimeEndian;
use section_bytes::error::Error;
use std::io;

// A call over a list: next, or by the number of a mark.
#[derive(Clone, Copy)]
enum Call {
    Next,
    Set(u64),
    Return(u64),
}

fn say(rt: &impl Print, text: &[u8]) -> io::Result<()> {
    rt.write_all(text)
}

// A range or a location.
trait Item: Copy {
    fn print(self, rt: &impl Print) -> io::Result<()>;
}

impl Item for Range {
    fn print(self, rt: &impl Print) -> io::Result<()> {
        print!(rt; " {:x} {:x}", self.begin, self.end)
    }
}

impl Item for LocationListEntry {
    fn print(self, rt: &impl Print) -> io::Result<()> {
        self.range.print(rt)?;
        print!(rt; " expression {:x} {:x}", self.data.offset, self.data.len)
    }
}

fn refused(rt: &impl Print, e: Error) -> io::Result<()> {
    print!(rt; " refused {} {:x}", e.number(), e.value())
}

fn read<I: Item>(
    rt: &impl Print,
    (answer, walk): (Result<Option<I>, Error>, Walk),
) -> io::Result<Walk> {
    match answer {
        Ok(Some(item)) => item.print(rt)?,
        Ok(None) => say(rt, b" end")?,
        Err(e) => refused(rt, e)?,
    }
    Ok(walk)
}

fn next(rt: &impl Print, list: &[u8], unit: &Unit, lists: &Lists, walk: Walk) -> io::Result<Walk> {
    match *lists {
        Lists::Ranges(_) => read(rt, lists::rnglists::next(list, unit, walk)),
        Lists::Locations(file_type) => {
            read(rt, lists::loclists::next(list, unit, walk, file_type))
        }
    }
}

fn marked(
    rt: &impl Print,
    name: &str,
    number: u64,
    (answer, m): (Result<(), Error>, MarkedWalk),
) -> io::Result<MarkedWalk> {
    print!(rt; " {name} {number:x}")?;
    match answer {
        Ok(()) => say(rt, b" done")?,
        Err(e) => refused(rt, e)?,
    }
    Ok(m)
}

// Calls one after the other, from an opening on.
fn each(
    rt: &impl Print,
    label: &[u8],
    list: &[u8],
    unit: &Unit,
    lists: &Lists,
    opened: Result<Walk, Error>,
    calls: &[Call],
) -> io::Result<()> {
    say(rt, label)?;
    let start = match opened {
        Ok(walk) => walk,
        Err(e) => {
            refused(rt, e)?;
            at(0)
        }
    };
    let mut m = MarkedWalk::new(start);
    for call in calls {
        m = match *call {
            // A call that reads knows nothing of marks: its walk is put in the place of the one that it took.
            Next => MarkedWalk {
                walk: next(rt, list, unit, lists, m.walk)?,
                ..m
            },
            Set(number) => marked(rt, "set", number, m.set_mark(number))?,
            Return(number) => marked(rt, "return", number, m.return_to(number))?,
        };
        let walk = m.walk;
        print!(rt;
            " ({:x}, {:x}, {:x})",
            walk.at, walk.base_address, walk.entries
        )?;
    }
    say(rt, b"\n")
}

// A walk made by hand.
fn at(place: usize) -> Walk {
    Walk {
        at: place,
        base_address: 0,
        entries: 0,
    }
}

fn encoding(version: u16, address_size: u8) -> Encoding {
    Encoding {
        address_size,
        format: Format::Dwarf32,
        version,
    }
}

// Two addresses, 10 and 20, behind their header.
fn sized(address_size: u8) -> Unit<'static> {
    Unit {
        encoding: encoding(5, address_size),
        endian: RunTimeEndian::Little,
        debug_addr: b"\x0c\0\0\0\x05\0\x04\0\x10\0\0\0\x20\0\0\0",
        debug_addr_base: DebugAddrBase(8),
    }
}

// A range list's calls from a walk made by hand.
fn from(
    rt: &impl Print,
    label: &[u8],
    list: &[u8],
    address_size: u8,
    walk: Walk,
    calls: &[Call],
) -> io::Result<()> {
    let unit = sized(address_size);
    each(
        rt,
        label,
        list,
        &unit,
        &Lists::Ranges(None),
        Ok(walk),
        calls,
    )
}

fn ranges(rt: &impl Print, label: &[u8], list: &[u8], calls: &[Call]) -> io::Result<()> {
    let unit = sized(4);
    let opened = lists::rnglists::ranges(list, RangeListsOffset(0), unit.encoding, 0);
    each(rt, label, list, &unit, &Lists::Ranges(None), opened, calls)
}

// A mark behind the first location; then the second and the end, twice. Two addresses, 10 and 20, without a header.
fn locations(
    rt: &impl Print,
    label: &[u8],
    list: &[u8],
    version: u16,
    file_type: DwarfFileType,
) -> io::Result<()> {
    let unit = Unit {
        encoding: encoding(version, 4),
        endian: RunTimeEndian::Little,
        debug_addr: b"\x10\0\0\0\x20\0\0\0",
        debug_addr_base: DebugAddrBase(0),
    };
    let opened = lists::loclists::locations(list, LocationListsOffset(0), unit.encoding, 0);
    each(
        rt,
        label,
        list,
        &unit,
        &Lists::Locations(file_type),
        opened,
        &[Next, Set(6), Next, Next, Return(6), Next, Next],
    )
}

fn main(rt: HostRuntime) -> io::Result<()> {
    let list = b"\x07\x10\0\0\0\x01\x07\x20\0\0\0\x01\x07\x30\0\0\0\x01\0";
    ranges(
        &rt,
        b"the same calls:",
        list,
        &[Next, Set(0), Next, Next, Next, Return(0), Next, Next, Next],
    )?;
    ranges(
        &rt,
        b"base address:",
        b"\x05\0\x10\0\0\x04\x01\x02\x05\0\x20\0\0\x04\x03\x04\0",
        &[Next, Set(7), Next, Return(7), Next],
    )?;
    // Marks 0 and 7, for which 8 and the largest number could be taken, are set, and a third one.
    let largest = 0xffff_ffff_ffff_ffff;
    ranges(
        &rt,
        b"numbers above 7:",
        list,
        &[
            Next,
            Set(0),
            Set(3),
            Set(7),
            Next,
            Set(8),
            Return(8),
            Set(largest),
            Return(largest),
            Return(0),
            Return(7),
            Return(3),
            Next,
        ],
    )?;
    ranges(&rt, b"never set:", list, &[Next, Return(5), Next])?;
    ranges(
        &rt,
        b"set again:",
        list,
        &[Next, Set(2), Next, Set(2), Next, Return(2), Next],
    )?;
    ranges(
        &rt,
        b"two returns:",
        list,
        &[
            Next,
            Set(0),
            Next,
            Set(1),
            Next,
            Return(0),
            Return(0),
            Return(1),
            Next,
        ],
    )?;
    from(
        &rt,
        b"size 5:",
        b"\0",
        5,
        at(0),
        &[Set(0), Return(0), Next, Return(0)],
    )?;
    ranges(
        &rt,
        b"failed lookup:",
        b"\x02\0\x02\x03\0\x08\0",
        &[Set(0), Next, Next, Next, Return(0), Next, Next, Next],
    )?;
    from(
        &rt,
        b"place 63:",
        list,
        4,
        at(99),
        &[Set(0), Return(0), Next],
    )?;
    // Base 1000 and the pair 1 and 2 with the expression 50; base 2000 and the pair 3 and 4 with 91 08; the end mark.
    locations(
        &rt,
        b"locations:",
        b"\x06\0\x10\0\0\x04\x01\x02\x01\x50\x06\0\x20\0\0\x04\x03\x04\x02\x91\x08\0",
        5,
        DwarfFileType::Main,
    )?;
    // By index and length: from row 0 on eight addresses with the expression 50, from row 1 on four with 91 7c; the end mark.
    locations(
        &rt,
        b"split, version 4:",
        b"\x03\0\x08\0\0\0\x01\0\x50\x03\x01\x04\0\0\0\x02\0\x91\x7c\0",
        4,
        DwarfFileType::Dwo,
    )
}
