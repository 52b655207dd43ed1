// A line for each answer: what it is, its numbers in hexadecimal, and where the walk stands after it.
use entries::Expression;
use lists::Walk;
use section_bytes::Read;
use section_bytes::error::Error;
use std::{fmt, io};

// The calls that a walk gets at most. After the end was said it gets one more.
pub const CALLS: u64 = 64;

// The refusal's number, and its value, 0 where it has none.
#[derive(Clone, Copy)]
pub struct Refused(pub Error);

impl fmt::Display for Refused {
    fn fmt<W: fmt::Write>(&self, f: &mut fmt::Formatter<W>) -> fmt::Result {
        let Refused(e) = *self;
        write!(f, "refused {:x} {:x}", e.number(), e.value())
    }
}

// A raw entry: its kind, and its numbers, 0 where it has fewer.
#[derive(Clone, Copy)]
pub struct Form {
    pub kind: &'static str,
    pub a: u64,
    pub b: u64,
}

pub(crate) fn raw(rt: &impl Print, form: Form) -> io::Result<()> {
    print!(rt; "{} {:x} {:x}", form.kind, form.a, form.b)
}

pub(crate) fn expression(rt: &impl Print, data: Expression) -> io::Result<()> {
    print!(rt; " expression {:x} {:x}", data.offset, data.len)
}

// A walk after a call, and whether the call said the end.
#[derive(Clone, Copy)]
pub struct Turn {
    pub walk: Walk,
    pub ended: bool,
}

pub(crate) fn stands(rt: &impl Print, walk: Walk, ended: bool) -> io::Result<Turn> {
    println!(rt; " at {:x} base {:x}", walk.at, walk.base_address)?;
    Ok(Turn { walk, ended })
}

pub(crate) fn number(rt: &impl Print, n: u64) -> io::Result<()> {
    println!(rt; "value {n:x}")
}

pub(crate) fn value(rt: &impl Print, answer: Result<u64, Error>) -> io::Result<()> {
    match answer {
        Ok(x) => number(rt, x),
        Err(e) => println!(rt; "{}", Refused(e)),
    }
}

pub(crate) fn read(rt: &impl Print, answer: Read<u64>) -> io::Result<()> {
    match answer {
        Ok((x, after)) => println!(rt; "value {x:x} {after:x}"),
        Err(e) => println!(rt; "{}", Refused(e)),
    }
}
