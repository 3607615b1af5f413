// What comes of a line that is not refused.
ghost use Rattle.std.specs.Prelude.{◌≡◌};

use checks::CheckedRow;
use field::{Element, Field};
use std::alloc::AllocError;

pub enum Outcome<F: Field> {
    // A remark: nothing was asked.
    Skipped,
    // The row was submitted, and answered with the figure.
    Answered(CheckedRow<F>, Element),
    // The row was submitted, granted and withdrawn.
    Granted,
    // The witness table, 0 from the count on; no Vec, since a line wants no memory.
    Filled([Element; 64]),
}

impl<F: Field> Clone for Outcome<F> {
    ghost is_clone = { λ x y. y ≡ x };

    ghost is_infallible = { λ _. Unit {0} };

    fn clone(&self) -> Result<Outcome<F>, AllocError> {
        Ok(*self)
    }
}

impl<F: Field> Copy for Outcome<F> {}
