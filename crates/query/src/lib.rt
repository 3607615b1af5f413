// Query text: reading one line of it as a request, or finding its first fault.
#![tactic(auto)]

mod faults;
mod items;
mod laws;
mod lines;
mod numbers;
mod reader;
mod refusals;

pub use faults::{DigitFault, ItemFault, LineFault, NumberFault};
pub use items::Weights;
pub use laws::{decimals_read_back, worked_faults};
pub use lines::{Request, read_line};
