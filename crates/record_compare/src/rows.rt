// Rows that are generated.
ghost use Rattle.std.specs.Prelude.{◌+◌, ◌≤◌};

use field::{Element, Field};
use std::array;
use trials::Dice;

pub(crate) type Row = [Element; 64];

pub(crate) const NOBODY: Row = [Element(0); 64];

// What the weights of a row are: all 1, each 1 or 2, or each any element.
#[derive(Clone, Copy)]
enum Weights {
    One,
    OneOrTwo,
    Any,
}

impl Weights {
    fn rolled(dice: &mut Dice) -> Weights {
        match dice.roll(3) {
            0 => Weights::One,
            1 => Weights::OneOrTwo,
            _ => Weights::Any,
        }
    }

    fn weight<F: Field>(self, dice: &mut Dice) -> Element {
        match self {
            Weights::One => Element(1),
            Weights::OneOrTwo => Element(1 + dice.roll(2)),
            Weights::Any => dice.element::<F>(),
        }
    }
}

// The row that names one member alone.
pub(crate) fn alone(member: usize) -> Row {
    array::from_fn(|m| Element(u32::from(m == member)))
}

// Many or few weights of one sort, for the members from `start` on that are within `reach`.
pub(crate) fn generated<F: Field>(dice: &mut Dice, start: u32, reach: u32) -> Row
    requires { start + reach ≤ 64 }
{
    let few = dice.roll(reach) + 1;
    let weights = Weights::rolled(dice);
    let mut row = NOBODY;
    for weight in &mut row[start as usize..(start + reach) as usize] {
        if dice.roll(few) == 0 {
            *weight = weights.weight::<F>(dice);
        }
    }
    row
}
