// Amounts: the field of the numbers modulo the prime 65521, kind 1.
#![tactic(auto)]

ghost use Rattle.std.specs.Prelude.{◌≡◌, ◌%◌, ◌<◌, ◌&&◌, nat_lt};
ghost use Rattle.amounts.specs.Prime.{amounts};
ghost use Rattle.amounts.specs.Laws;

use field::{Element, Field};

const SIZE: u32 = 65521;

#[derive(Clone, Copy, PartialEq, Eq, Debug)]
pub struct Amounts;

fn reduced(n: u64) -> Element
    ensures { result.0 ≡ n % 65521 }
{
    Element((n % u64::from(SIZE)) as u32)
}

// Whether both codes are below the size, as they are in checked data. Their sum and product then need 32 bits.
fn are_elements(a: Element, b: Element) -> bool
    ensures { result ≡ (nat_lt a.0 65521 && nat_lt b.0 65521) }
{
    a.0 < SIZE && b.0 < SIZE
}

impl Field for Amounts {
    ghost model = { amounts };

    ghost laws = { Laws.laws };

    fn size() -> u32 {
        SIZE
    }

    fn kind() -> u8 {
        1
    }

    fn add(a: Element, b: Element) -> Element {
        if !are_elements(a, b) {
            return reduced(u64::from(a.0) + u64::from(b.0));
        }
        let sum = a.0 + b.0;
        Element(if sum < SIZE { sum } else { sum - SIZE })
    }

    fn mul(a: Element, b: Element) -> Element {
        if !are_elements(a, b) {
            return reduced(u64::from(a.0) * u64::from(b.0));
        }
        Element(a.0 * b.0 % SIZE)
    }

    // One remainder for both steps, with no branch: the sum needs 64 bits at most.
    fn mul_add(a: Element, b: Element, c: Element) -> Element {
        reduced(u64::from(c.0) + u64::from(a.0) * u64::from(b.0))
    }

    fn neg(a: Element) -> Element {
        if a.0 == 0 {
            return Element(0);
        }
        if a.0 < SIZE {
            return Element(SIZE - a.0);
        }
        reduced(u64::from(SIZE - a.0 % SIZE))
    }

    // Each turn keeps `a` times `factor` equal to `rest`, modulo the size, until `rest` is 1: steps with no list to walk.
    fn inv(a: Element) -> Element {
        let mut factor = Element(1);
        let mut rest = a.0 % SIZE;
        while rest > 1 {
            factor = Self::mul(factor, Element(SIZE - SIZE / rest));
            rest = SIZE % rest;
        }
        if rest == 0 { Element(0) } else { factor }
    }
}
