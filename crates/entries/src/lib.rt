// Raw entries of range lists and location lists: DWARF 5's kinds, split lists up to version 4, bare pairs.
#![tactic(auto)]

pub mod constants;
pub mod kinds;
pub mod loclists;
pub mod operands;
pub mod padded;
pub mod raw;
pub mod rnglists;

use section_bytes::common::{DebugAddrIndex, DwarfFileType};

// An expression's bytes: where they start, counted from the section's start, and how many they are.
#[derive(Clone, Copy)]
pub struct Expression {
    pub offset: usize,
    pub len: usize,
}

// Where an entry has no expression, the empty part at the section's start.
pub const NO_EXPRESSION: Expression = Expression { offset: 0, len: 0 };

#[derive(Clone, Copy)]
pub enum RawRngListEntry {
    AddressOrOffsetPair(u64, u64),
    BaseAddress(u64),
    BaseAddressx(DebugAddrIndex),
    StartxEndx(DebugAddrIndex, DebugAddrIndex),
    StartxLength(DebugAddrIndex, u64),
    OffsetPair(u64, u64),
    StartEnd(u64, u64),
    StartLength(u64, u64),
}

#[derive(Clone, Copy)]
pub enum RawLocListEntry {
    AddressOrOffsetPair(u64, u64, Expression),
    BaseAddress(u64),
    BaseAddressx(DebugAddrIndex),
    StartxEndx(DebugAddrIndex, DebugAddrIndex, Expression),
    StartxLength(DebugAddrIndex, u64, Expression),
    OffsetPair(u64, u64, Expression),
    DefaultLocation(Expression),
    StartEnd(u64, u64, Expression),
    StartLength(u64, u64, Expression),
}

// A raw entry, and whether some LEB128 number of it is padded.
#[derive(Clone, Copy)]
pub struct Noted<E> {
    pub entry: E,
    pub padded: bool,
}

// Which lists are read: range lists, with DWARF's numbers of kinds or those of a table; or location lists of a file of some type.
#[derive(Clone, Copy)]
pub enum Lists<'a> {
    Ranges(Option<&'a [u8]>),
    Locations(DwarfFileType),
}
