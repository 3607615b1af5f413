// A survey of three shops, from the first row asked to the last: prints each call of a session, with its reply.
#![tactic(auto)]

use std::io;

mod asked;
mod clients;
mod listed;
mod show;

fn main(rt: HostRuntime) -> io::Result<()> {
    listed::run(&rt)?;
    asked::run(&rt)
}
