// A log that is made: rows that a record admits, written one after another.
ghost use Rattle.std.specs.Prelude.{◌≤◌, length};

use answer_log::{write_header, write_row};
use checks::CheckedRow;
use field::{Element, Field};
use record::Record;
use std::array;
use trials::{Dice, figure};

// The buffer and what is used of it, and no `Vec`: a row is written to the front of what is left.
#[derive(Clone, Copy)]
pub(crate) struct Made {
    buffer: [u8; 2048],
    used: usize,
    pub rows: usize,
    ghost within: { used ≤ 2048 },
}

// Many or few of 64 weights, each 1 or each any element.
pub(crate) fn generated<F: Field>(dice: &mut Dice) -> [Element; 64] {
    let few = 1 + dice.roll(6);
    let plain = dice.roll(2) == 0;
    array::from_fn(|_| {
        if dice.roll(few) > 0 {
            Element(0)
        } else if plain {
            Element(1)
        } else {
            dice.element::<F>()
        }
    })
}

impl Made {
    // The header of a log of n members.
    pub(crate) fn header<F: Field>(n: usize) -> Made {
        let mut buffer = [0; 2048];
        let used = write_header::<F>(n, &mut buffer).unwrap_or(0);
        Made {
            buffer,
            used,
            rows: 0,
        }
    }

    // The bytes so far.
    pub(crate) fn log(&self) -> &[u8]
        ensures { length result.now ≤ 2048 }
    {
        &self.buffer[..self.used]
    }

    // Gives a row with its figure over a table to the record, and writes it where it is admitted.
    pub(crate) fn give<F: Field>(
        &mut self,
        rec: &mut Record<F>,
        row: &[Element],
        table: &[Element],
    ) {
        let Ok(checked) = CheckedRow::new(row, rec.count()) else {
            return;
        };
        let figure = figure::<F>(row, table);
        if rec.admit(&checked, figure).is_err() {
            return;
        }
        if let Ok(length) = write_row(&checked, figure, &mut self.buffer[self.used..]) {
            self.used += length;
            self.rows = self.rows.saturating_add(1);
        }
    }
}
