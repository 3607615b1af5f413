// The rows that were admitted, each with its figure.
use crate::ranks::Verdict;
use crate::rows::{NOBODY, Row};
use field::{Element, Field};
use std::alloc::{AllocError, Global};
use trials::{Dice, figure};

#[derive(Clone, Copy)]
pub(crate) struct Figured {
    pub row: Row,
    pub figure: Element,
}

#[derive(Drop)]
pub(crate) struct Given {
    taken: Vec<Figured>,
}

impl Given {
    pub(crate) fn nothing(heap: Global) -> Given {
        Given {
            taken: Vec::new(heap),
        }
    }

    pub(crate) fn rows(&self) -> &[Figured] {
        self.taken.as_slice()
    }

    // Takes a row with its figure, where it is one to be admitted.
    pub(crate) fn take(&mut self, verdict: Verdict, figured: Figured) -> Result<(), AllocError> {
        if matches!(verdict, Verdict::Fixed | Verdict::Free) {
            self.taken.push(figured)?;
        }
        Ok(())
    }

    // Each row taken 0 times, once or twice: a row that these rows fix.
    pub(crate) fn mixed<F: Field>(&self, dice: &mut Dice) -> Row {
        let mut mix = NOBODY;
        for figured in &self.taken {
            let factor = Element(dice.roll(3));
            for (sum, weight) in mix.iter_mut().zip(figured.row.iter()) {
                *sum = F::add(*sum, F::mul(factor, *weight));
            }
        }
        mix
    }

    // Whether a table has the figure of each row.
    pub(crate) fn fits<F: Field>(&self, table: &Row) -> bool {
        self.taken.iter().all(|figured| figure::<F>(&figured.row, table) == figured.figure)
    }
}
