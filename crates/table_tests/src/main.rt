// Tests of fields, servers and table files: prints a line for each case, with its answer.
#![tactic(auto)]

use std::io;

mod elements;
mod files;
mod servers;
mod show;

fn main(rt: HostRuntime) -> io::Result<()> {
    files::run(&rt)?;
    servers::run(&rt)?;
    elements::run(&rt)
}
