// The line of a refused table file.
ghost use Rattle.std.specs.Prelude.{Some};
ghost use Rattle.check_table.specs.Lines.{refused_line};

use refusal::Refusal;
use std::fmt;

// A refusal, shown by its number and what comes with it.
#[derive(Clone, Copy)]
pub(crate) struct Refused(pub Refusal);

impl fmt::Display for Refused {
    ghost output = { λ r. Some (refused_line r.0) };

    fn fmt<W: fmt::Write>(&self, f: &mut fmt::Formatter<W>) -> fmt::Result {
        let number = self.0.number();
        let detail = self.0.detail();
        write!(f, "- {number} {detail}")
    }
}
