// gimli's answers again, with no gimli at hand. Standard input has a call on each line; the program makes it with the
// port and writes the line and the answers below it; a line that is no call ends it with `bad record`. The file stdout
// has what gimli answered. compare/make-replay writes both files.
#![tactic(auto)]

mod headers;
mod lines;
mod locations;
mod numbers;
mod ranges;
mod show;
mod walks;

use lines::Line;
use std::io;

// One byte more than the longest input has.
const INPUT: usize = 500001;

// The calls on lists, and those that look at one section; false where there is no such call.
fn answer(rt: &impl Print, line: &Line) -> io::Result<bool> {
    let call = line.call;
    let table = line.table.bytes();
    if call.what < 12 {
        walks::answer(rt, line)?;
        return Ok(true);
    }
    if call.what < 17 {
        headers::answer(rt, call, table)?;
        return Ok(true);
    }
    numbers::answer(rt, call, table)
}

// The line and its answers; false where the line is no call.
fn replay_line(rt: &impl Print, text: &[u8]) -> io::Result<bool> {
    let Some(line) = lines::parse(text) else {
        return Ok(false);
    };
    rt.write_all(text)?;
    answer(rt, &line)
}

fn replay(rt: &impl Print, text: &[u8]) -> io::Result<()> {
    for line in text.split_inclusive(|&x| x == b'\n') {
        if !replay_line(rt, line)? {
            return println!(rt; "bad record");
        }
    }
    Ok(())
}

fn main(rt: HostRuntime) -> io::Result<()> {
    let mut text = [0u8; INPUT];
    let n = input::read_full(&mut rt.reader(), &mut text)?;
    if n == INPUT {
        return println!(rt; "bad record");
    }
    replay(&rt, &text[..n])
}
