// The examples of docs/SCOPE.md through the public functions of bytes, tables and entries. The file stdout has the answers as that
// page gives them.
#![tactic(auto)]

mod examples;
mod headers;
mod nothing;
mod rows;
mod show;

use std::io;

fn main(rt: HostRuntime) -> io::Result<()> {
    refusals(&rt)?;
    good(&rt)?;
    empty(&rt)
}

fn refusals(rt: &impl Print) -> io::Result<()> {
    rows::missing(rt)?;
    rows::kinds(rt)?;
    rows::headers(rt)?;
    rows::lengths(rt)
}

fn good(rt: &impl Print) -> io::Result<()> {
    examples::table(rt)?;
    examples::table_of_three(rt)?;
    headers::sizes(rt)?;
    headers::wide(rt)?;
    headers::placed(rt)?;
    headers::refused(rt)?;
    examples::offsets(rt)?;
    examples::numbers(rt)?;
    examples::orders(rt)?;
    examples::addresses(rt)?;
    examples::entries(rt)?;
    examples::split(rt)?;
    examples::pairs(rt)
}

fn empty(rt: &impl Print) -> io::Result<()> {
    nothing::skips(rt)?;
    nothing::reads(rt)?;
    nothing::numbers(rt)?;
    nothing::tables(rt)?;
    nothing::rows(rt)?;
    nothing::lists(rt)
}
