// A log read into a record: its rows join with the figures that stand in the log.
#![tactic(auto)]

mod joining;
mod reading;
mod rewriting;
mod theorems;

pub use reading::{ReadLog, read_record};
pub use rewriting::rewrite_accepted;
pub use theorems::{
    accepted_is_in_order, accepted_is_written, answered_is_accepted, log_is_sound, one_answer,
    possible_after_a_log, read_is_written, written_is_accepted,
};
