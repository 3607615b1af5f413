// Worked cases of the record: prints a line for each, with its answer.
#![tactic(auto)]

use std::io;

mod ask;
mod cases;
mod refusals;
mod show;

fn main(rt: HostRuntime) -> io::Result<()> {
    cases::run(&rt)?;
    refusals::run(&rt)
}
