// One line of query text, read and carried out on a session.
#![tactic(auto)]

mod calls;
mod faults;
mod outcome;

pub use calls::carry_out;
pub use faults::RequestFault;
pub use outcome::Outcome;
