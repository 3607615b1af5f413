// Worked cases of logs: prints a line for each, with its answer, two faults in one log, and what becomes of a session that
// is resumed.
#![tactic(auto)]

use std::io;

mod amounts_logs;
mod amounts_orders;
mod cases;
mod orders;
mod resumed;
mod ticks_logs;
mod ticks_orders;
mod writers;

fn main(rt: HostRuntime) -> io::Result<()> {
    amounts_logs::run(&rt)?;
    ticks_logs::run(&rt)?;
    amounts_orders::run(&rt)?;
    ticks_orders::run(&rt)?;
    writers::run(&rt)?;
    resumed::run(&rt)
}
