// The replay of query text: a text goes in, audited answers and the log come out.
#![tactic(auto)]

mod lines;
mod outcome;
mod replays;

pub use outcome::{Replay, Stop};
pub use replays::replay;
