// Numbers read from lent bytes, and put into them: a place in a section goes in, a value with the place after it comes out.
#![tactic(auto)]

pub mod address;
pub mod common;
pub mod endianity;
pub mod error;
pub mod leb128;
pub mod put;
pub mod reader;

use common::Format;
use error::Error;

// What is read at a place, with the place after it.
pub type Read<T> = Result<(T, usize), Error>;

// A part of a section: where it starts, and how many bytes it has.
#[derive(Clone, Copy)]
pub struct Span {
    pub offset: usize,
    pub len: usize,
}

// A unit's length and the format that its form tells.
#[derive(Clone, Copy)]
pub struct UnitLength {
    pub length: u64,
    pub format: Format,
}
