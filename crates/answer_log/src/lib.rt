// The answer log: its header and its rows, written and read.
#![tactic(auto)]

mod parts;
mod reading;
mod rewriting;
mod rows;
mod writing;

pub use reading::{LogEntry, read_header, read_row};
pub use rewriting::{check_log, rewrite};
pub use rows::LogRows;
pub use writing::{write_header, write_row};
