// Generated logs: each is read back, compared with what was written, written again, and damaged.
#![tactic(auto)]

use amounts::Amounts;
use std::io;
use ticks::Ticks;

mod compare;
mod made;
mod rounds;
mod tally;

const COUNTS: [usize; 6] = [1, 3, 8, 9, 17, 64];

fn main(rt: HostRuntime) -> io::Result<()> {
    for n in COUNTS {
        rounds::all::<Amounts>(&rt, "amounts", n)?;
        rounds::all::<Ticks>(&rt, "ticks", n)?;
    }
    Ok(())
}
