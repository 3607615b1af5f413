// A row, shown by its weights and its figure.
ghost use Rattle.std.specs.Prelude.{Some};
ghost use Rattle.shown.specs.Texts.{listed, row_text};

use field::Element;
use std::fmt;

// Elements, with a text between them.
#[derive(Clone, Copy)]
pub struct Listed<'a> {
    pub elements: &'a [Element],
    pub between: &'a str,
}

impl fmt::Display for Listed<'_> {
    ghost output = { λ l. Some (listed l.between.now l.elements.now) };

    fn fmt<W: fmt::Write>(&self, f: &mut fmt::Formatter<W>) -> fmt::Result {
        let Some((first, rest)) = self.elements.split_first() else {
            return Ok(());
        };
        write!(f, "{first}")?;
        for element in rest {
            write!(f, "{}{element}", self.between)?;
        }
        Ok(())
    }
}

#[derive(Clone, Copy)]
pub struct Row<'a> {
    pub weights: &'a [Element],
    pub figure: Element,
}

impl fmt::Display for Row<'_> {
    ghost output = { λ r. Some (row_text r.weights.now r.figure) };

    fn fmt<W: fmt::Write>(&self, f: &mut fmt::Formatter<W>) -> fmt::Result {
        let weights = Listed {
            elements: self.weights,
            between: ", ",
        };
        write!(f, "({weights} : {})", self.figure)
    }
}
