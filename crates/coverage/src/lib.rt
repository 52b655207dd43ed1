// Coverage of a list: the addresses that it covers, as their longest unbroken runs.
#![tactic(auto)]

pub mod collect;
pub mod lawful;
pub mod place;
pub mod sort;

use entries::Lists;
use lists::Unit;

// How many ranges a list may yield, and a coverage keep.
pub const LIMIT: usize = 3000;
// How many ranges are gathered first in arrays of their own: nearly all lists yield no more.
pub const SHORT: usize = 32;

// The offset of a list of either kind, beside what says which.
#[derive(Clone, Copy)]
pub struct ListsOffset(pub u64);

// A list: the section that it stands in and its unit, which lists these are, where it begins, and its base address.
#[derive(Clone, Copy)]
pub struct Source<'a> {
    pub section: &'a [u8],
    pub unit: Unit<'a>,
    pub lists: Lists<'a>,
    pub offset: ListsOffset,
    pub base_address: u64,
}

// The addresses that a list covers: a count, and in two arrays begins and ends, ascending, never overlapping or touching.
// Places past the count are 0 and not read.
#[derive(Clone, Copy)]
pub struct Coverage {
    pub n: usize,
    pub begins: [u64; LIMIT],
    pub ends: [u64; LIMIT],
}
