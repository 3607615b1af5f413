// The field of ticks: bytes, added by exclusive or and multiplied as polynomials modulo 0x11B.
#![tactic(auto)]

ghost use Rattle.std.specs.Prelude.{◌≢◌, ◌≡◌, ℕ, ◌%◌, ◌<◌};
ghost use Rattle.std.specs.Int.Bits.{bit_xor};
ghost use Rattle.ticks.specs.Polynomials.{product, raised, ticks_field};
ghost use Rattle.ticks.specs.Tables.{Powers, Logarithms};
ghost use Rattle.ticks.specs.Laws;

use field::{Element, Field};

mod tables;

use tables::{LOGARITHMS, POWERS};

const SIZE: u32 = 256;

const KIND: u8 = 2;

#[derive(Clone, Copy, PartialEq, Eq, Debug)]
pub struct Ticks;

// The table of the powers of 3.
pub fn powers() -> &'static [u8; 255]
    ensures { Powers result.now }
{
    &POWERS
}

// The table of their exponents.
pub fn logarithms() -> &'static [u8; 256]
    ensures { Logarithms result.now }
{
    &LOGARITHMS
}

// 3 multiplied `exponent` times. The powers repeat after 255.
pub fn power(exponent: u32) -> u8
    ensures { result ≡ raised 3 exponent }
{
    powers()[(exponent % 255) as usize]
}

// The one exponent below 255 whose power is `a`. For 0, which is no power, the answer is 0.
pub fn logarithm(a: u8) -> u8
    ensures of_zero { a ≡ 0 → result ≡ 0 }
    ensures below { result < 255 }
    ensures undone { a ≢ 0 → raised 3 result ≡ a }
    ensures undoes { (k : ℕ) → k < 255 → raised 3 k ≡ a → result ≡ k }
{
    logarithms()[a as usize]
}

// The low byte of a code.
fn low(e: Element) -> u8
    ensures { result ≡ e.0 % 256 }
{
    (e.0 % 256) as u8
}

impl Field for Ticks {
    ghost model = { ticks_field };

    ghost laws = { Laws.laws };

    fn size() -> u32 {
        SIZE
    }

    fn kind() -> u8 {
        KIND
    }

    fn add(a: Element, b: Element) -> Element {
        Element(u32::from(low(a) ^ low(b)))
    }

    fn mul(a: Element, b: Element) -> Element {
        let x = low(a);
        let y = low(b);
        if x == 0 || y == 0 {
            return Element(0);
        }
        let exponent = u32::from(logarithm(x)) + u32::from(logarithm(y));
        Element(u32::from(power(exponent)))
    }

    fn neg(a: Element) -> Element {
        Element(u32::from(low(a)))
    }

    fn inv(a: Element) -> Element {
        let x = low(a);
        if x == 0 {
            return Element(0);
        }
        Element(u32::from(power(255 - u32::from(logarithm(x)))))
    }
}
