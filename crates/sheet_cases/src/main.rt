// The program over sheets on a folder of inputs: each one's name, and what the program prints for it.
#![tactic(auto)]

use std::rt::Files;
use std::{fs, io};

fn run(rt: &(impl Files + Print), name: &str) -> io::Result<()> {
    println!(rt; "{name}")?;
    let Ok(mut file) = fs::open(rt, name) else {
        return println!(rt; "not there");
    };
    let mut sheet = [0u8; show::ROOM];
    let n = input::read_full(&mut file, &mut sheet)?;
    show::show(rt, &sheet[..n])?;
    Ok(())
}

fn main(rt: HostRuntime) -> io::Result<()> {
    let names = [
        "empty",
        // The example of refusal 12 in docs/SCOPE.md.
        "count_alone",
        "no_ranges",
        "cut",
        "trailing",
        // A sheet of 1,024 ranges, once the limit, and one of 1,025, which was refused then.
        "stored",
        "stored_and_one",
        "full",
        // One lawful range more than the limit, in as many bytes as they take: the count alone is refused.
        "over",
        // A full sheet, and more bytes behind it than the program has room for.
        "long",
    ];
    for name in names {
        run(&rt, name)?;
    }
    Ok(())
}
