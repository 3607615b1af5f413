// A refusal, shown by its number and what comes with it.
ghost use Rattle.std.specs.Prelude.{Some};
ghost use Rattle.shown.specs.Texts.{refused_text, answered_text};

use refusal::Refusal;
use std::fmt;

#[derive(Clone, Copy)]
pub struct Refused(pub Refusal);

impl fmt::Display for Refused {
    ghost output = { λ r. Some (refused_text r.0) };

    fn fmt<W: fmt::Write>(&self, f: &mut fmt::Formatter<W>) -> fmt::Result {
        let number = self.0.number();
        let detail = self.0.detail();
        write!(f, "refused by {number} with {detail}")
    }
}

// What was given, or the refusal in its place.
#[derive(Clone, Copy)]
pub struct Answered<T>(pub Result<T, Refusal>);

impl<T: fmt::Display> fmt::Display for Answered<T> {
    ghost output = { λ a. answered_text T.output a.0 };

    fn fmt<W: fmt::Write>(&self, f: &mut fmt::Formatter<W>) -> fmt::Result {
        match &self.0 {
            Ok(given) => given.fmt(f),
            Err(refusal) => Refused(*refusal).fmt(f),
        }
    }
}
