// Some weights, as a row of 64 places.
ghost use Rattle.std.specs.Prelude.{◌≡◌, ℕ, ◌<◌, ◌≤◌, length, take};
ghost use Rattle.field.specs.Sums.{weights_of};

use field::Element;

// The first 64 weights, and 0 in the places past them.
pub(crate) fn padded(weights: &[Element]) -> [Element; 64]
    ensures front { length weights.now ≤ 64 → take (length weights.now) result ≡ weights.now }
    ensures each { (m : ℕ) → m < 64 → weights_of result m ≡ weights_of weights.now m }
    ensures rest { (m : ℕ) → length weights.now ≤ m → weights_of result m ≡ 0 }
{
    let mut row = [Element(0); 64];
    let few = weights.len().min(64);
    row[..few].copy_from_slice(&weights[..few]);
    row
}
