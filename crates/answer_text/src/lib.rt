// The lines that a replay prints: answers, refusals, stops.
#![tactic(auto)]

mod answers;
mod laws;
mod lines;
mod numbers;
mod pairs;

pub use answers::Answer;
pub use laws::lines_fit;
pub use lines::write_answer;
pub use pairs::{write_refusal, write_stop};
