// How programs show refusals and rows.
#![tactic(auto)]

mod refused;
mod row;

pub use refused::{Answered, Refused};
pub use row::{Listed, Row};
