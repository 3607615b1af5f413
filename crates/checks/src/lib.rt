// What a call passes before it is judged: the checks of a row and of a witness call, in their order.
#![tactic(auto)]

mod padding;
mod row;

pub use row::CheckedRow;
