// Tables, and which of them are loaded.
use super::{refused, say};
use std::io;

// A supplier's: 10, 11 and 14 to 17 for the kinds 0, 1 and 4 to 7, and no code for kinds 2 and 3.
pub(crate) fn supplier() -> [u8; 256] {
    let mut t = [0xffu8; 256];
    t[0x10] = 0;
    t[0x11] = 1;
    t[0x14] = 4;
    t[0x15] = 5;
    t[0x16] = 6;
    t[0x17] = 7;
    t
}

// DWARF's own numbers.
pub(crate) fn fixed() -> [u8; 256] {
    let mut t = [0xffu8; 256];
    for kind in 0..8u8 {
        t[kind as usize] = kind;
    }
    t
}

fn load(rt: &impl Print, label: &[u8], table: &[u8]) -> io::Result<()> {
    say(rt, label)?;
    match entries::kinds::load(table) {
        Ok(()) => say(rt, b" loaded")?,
        Err(e) => refused(rt, e)?,
    }
    say(rt, b"\n")
}

fn lengths(rt: &impl Print) -> io::Result<()> {
    let mut short = [0xffu8; 255];
    short[0] = 0;
    load(rt, b"255 bytes:", &short)?;
    let mut long = [0xffu8; 257];
    long[0] = 0;
    load(rt, b"257 bytes:", &long)?;
    load(rt, b"no bytes:", b"")
}

// The fixed table with a byte at code 8.
fn at_eight(rt: &impl Print, label: &[u8], kind: u8) -> io::Result<()> {
    let mut t = fixed();
    t[8] = kind;
    load(rt, label, &t)
}

fn bytes(rt: &impl Print) -> io::Result<()> {
    at_eight(rt, b"8 at code 8:", 8)?;
    at_eight(rt, b"fe at code 8:", 0xfe)?;
    at_eight(rt, b"4 at code 8:", 4)?;
    at_eight(rt, b"0 at code 8:", 0)?;
    at_eight(rt, b"7 at code 8:", 7)
}

fn end_codes(rt: &impl Print) -> io::Result<()> {
    let mut none = fixed();
    none[0] = 0xff;
    load(rt, b"no code for kind 0:", &none)?;
    let mut t = [0xffu8; 256];
    load(rt, b"no code for any kind:", &t)?;
    t[0] = 0;
    load(rt, b"kind 0 at code 0 alone:", &t)?;
    t[0] = 0xff;
    t[0xff] = 0;
    load(rt, b"kind 0 at code ff alone:", &t)
}

pub(crate) fn loadings(rt: &impl Print) -> io::Result<()> {
    load(rt, b"fixed:", &fixed())?;
    load(rt, b"supplier:", &supplier())?;
    lengths(rt)?;
    bytes(rt)?;
    end_codes(rt)
}
