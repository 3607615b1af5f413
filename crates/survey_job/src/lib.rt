// The job of the program `replay`, as a function on values: a table file and a query text go in, what is printed and
// the log come out.
#![tactic(auto)]

mod jobs;
mod memory;
mod replays;
mod stops;

pub use jobs::run_job;
pub use memory::JobMemory;
pub use replays::Job;
