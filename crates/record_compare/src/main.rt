// Generated rows: what the record says of each is compared with a plain computation from scratch.
#![tactic(auto)]

use amounts::Amounts;
use std::io;
use ticks::Ticks;

mod given;
mod ranks;
mod round;
mod rows;
mod tally;

use round::Play;

fn both(rt: &HostRuntime, play: Play) -> io::Result<()> {
    round::all::<Amounts>(rt, "amounts", play)?;
    round::all::<Ticks>(rt, "ticks", play)
}

fn main(rt: HostRuntime) -> io::Result<()> {
    for members in 2..6 {
        let small = Play {
            members,
            reach: members,
            rounds: 100,
            rows: 10,
        };
        both(&rt, small)?;
    }
    let near = Play {
        members: 64,
        reach: 7,
        rounds: 20,
        rows: 20,
    };
    both(&rt, near)?;
    let far = Play {
        members: 64,
        reach: 64,
        rounds: 4,
        rows: 60,
    };
    both(&rt, far)
}
