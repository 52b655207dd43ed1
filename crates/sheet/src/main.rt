// The program over sheets: a sheet on standard input, its ranges on standard output.
#![tactic(auto)]

use std::io;

fn main(rt: HostRuntime) -> io::Result<()> {
    let mut sheet = [0u8; show::ROOM];
    let n = input::read_full(&mut rt.reader(), &mut sheet)?;
    show::show(&rt, &sheet[..n])?;
    Ok(())
}
