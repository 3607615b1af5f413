// Worked replays, and replays at every limit: prints what each answers, prints and logs.
#![tactic(auto)]

use std::io;

mod limits;
mod longest;
mod replays;
mod show;
mod worked;

fn main(rt: HostRuntime) -> io::Result<()> {
    worked::run(&rt)?;
    limits::run(&rt)?;
    longest::run(&rt)
}
