// Walking range lists and location lists: opening, raw entries, conversion, the next range or location.
#![tactic(auto)]

pub mod convert;
pub mod count;
pub mod listed;
pub mod loclists;
mod moves;
pub mod open;
pub mod rnglists;

use entries::Expression;
use section_bytes::common::{DebugAddrBase, Encoding};
use section_bytes::endianity::RunTimeEndian;

// What is the same for all lists of a unit: how it is written, and the table of the addresses that entries name by index.
#[derive(Clone, Copy)]
pub struct Unit<'a> {
    pub encoding: Encoding,
    pub endian: RunTimeEndian,
    pub debug_addr: &'a [u8],
    pub debug_addr_base: DebugAddrBase,
}

// A place in the section, the base address there, and how many raw entries were read since the list was opened.
#[derive(Clone, Copy)]
pub struct Walk {
    pub at: usize,
    pub base_address: u64,
    pub entries: u64,
}

// The addresses from begin on, end not among them.
#[derive(Clone, Copy)]
pub struct Range {
    pub begin: u64,
    pub end: u64,
}

// A range and the expression that says where the value lives there.
#[derive(Clone, Copy)]
pub struct LocationListEntry {
    pub range: Range,
    pub data: Expression,
}
