// The record: the reduced echelon form of the answered rows, what it fixes, what would pin a member, and the witness. The
// audit: a record with the row that is open.
#![tactic(auto)]

mod audit;
mod judge;
mod record;
mod room;
mod rows;

pub use audit::Audit;
pub use judge::{Admission, Judgement};
pub use record::Record;
pub use room::Room;
pub use rows::{FiguredRow, RecordRow, RowNumber};
