// What trials of generated rows have in common: pseudo-random numbers, and the figure of a row, computed plainly.
#![tactic(auto)]

ghost use Rattle.std.specs.Prelude.{◌≡◌, ◌+◌, ◌<◌, min};
ghost use Rattle.trials.specs.Trials.{stepped, rolled, figured};

use field::{Element, Field};

// A linear congruential generator: the same numbers in every run.
#[derive(Drop)]
pub struct Dice(u64);

impl Dice {
    pub fn new(seed: u64) -> Dice
        ensures { result.0 ≡ seed }
    {
        Dice(seed)
    }

    // A number below a bound, and 0 where the bound is 0.
    pub fn roll(&mut self, bound: u32) -> u32
        ensures state { self.new.0 ≡ stepped self.old.0 }
        ensures is { result ≡ rolled (stepped self.old.0) bound }
        ensures below { 0 < bound → result < bound }
    {
        let next = self.0.wrapping_mul(6364136223846793005);
        self.0 = next.wrapping_add(1442695040888963407);
        ((self.0 >> 33) % u64::from(bound.max(1))) as u32
    }

    // Any element of a field.
    pub fn element<F: Field>(&mut self) -> Element
        ensures state { self.new.0 ≡ stepped self.old.0 }
        ensures is { result.0 ≡ rolled (stepped self.old.0) F.model.size }
    {
        Element(self.roll(F::size()))
    }
}

// The field sum of weight times value, over the members that have both.
pub fn figure<F: Field>(row: &[Element], table: &[Element]) -> Element
    ensures { result ≡ figured F.model row.now table.now }
{
    row.iter()
        .zip(table.iter())
        .fold(Element(0), |sum, (weight, value)| {
            F::add(sum, F::mul(*weight, *value))
        })
}

// Counts one more, and stays at the greatest count.
pub fn count_one(count: &mut usize)
    ensures { count.new ≡ min (count.old + 1) usize.MAX }
{
    *count = count.saturating_add(1);
}
