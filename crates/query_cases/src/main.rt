// Lines of query text, faulty and whole: prints a line for each, with what it wants or its first fault.
#![tactic(auto)]

use std::io;

mod accepted;
mod damaged;
mod faults;
mod long;
mod order;
mod show;

fn main(rt: HostRuntime) -> io::Result<()> {
    faults::run(&rt)?;
    order::run(&rt)?;
    accepted::run(&rt)?;
    long::run(&rt)?;
    damaged::run(&rt)
}
