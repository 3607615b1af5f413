// The numbers of a line: one to five decimal digits, with no needless zero in front.
ghost use Rattle.std.specs.Prelude.{◌≡◌, ◌<◌, ◌&&◌, length, ◌==◌, nat_lt};
ghost use Rattle.std.specs.List.{take_while};
ghost use Rattle.std.specs.Char.{is_ascii_digit};
ghost use Rattle.query.specs.Numbers.{byte_at, stands_at, read_digit_lem, digits, worth, read_number};

use crate::faults::{DigitFault, NumberFault};
use crate::reader::Reader;
use refusal::BytePlace;

// A number of a line: the place of its first digit, its value, and the place after its last digit.
#[derive(Clone, Copy)]
pub(crate) struct Numeral {
    pub start: BytePlace,
    pub value: u32,
    pub after: BytePlace,
}

// How many digits the text begins with.
fn digit_count(text: &[u8]) -> usize
    ensures { result ≡ length (take_while is_ascii_digit text.now) }
{
    text.iter().take_while(|b| b.is_ascii_digit()).count()
}

// What at most five digits are worth.
fn digits_worth(text: &[u8]) -> u32
    requires all { digits text.now ≡ text.now }
    requires few { worth 0 text.now < 100000 }
    ensures { result ≡ worth 0 text.now }
{
    let mut value = 0;
    for b in text {
        value = value * 10 + u32::from(*b - b'0');
    }
    value
}

// Whether a number of so many digits has a zero in front of others.
fn leading_zero(first: u32, count: usize) -> bool
    ensures { result ≡ (first == 0 && nat_lt 1 count) }
{
    first == 0 && count > 1
}

impl Reader<'_> {
    // The character at a place, and none from the line's end on.
    pub(crate) fn char_at(&self, at: BytePlace) -> Option<char>
        ensures { result ≡ byte_at self.now.line.now at.0 }
    {
        self.line.get(at.0).map(|b| char::from(*b))
    }

    // Whether a character stands at a place.
    pub(crate) fn stands(&self, at: BytePlace, c: char) -> bool
        ensures { result ≡ stands_at self.now.line.now at.0 c }
    {
        self.char_at(at) == Some(c)
    }

    fn read_digit(&self, at: BytePlace) -> Result<u32, DigitFault>
        ensures { result ≡ read_digit_lem self.now.line.now at.0 }
    {
        self.char_at(at)
            .and_then(|c| c.to_digit(10))
            .ok_or(DigitFault(at))
    }

    // Reads the number at a place, from `least` up and below `limit`.
    pub(crate) fn read_number(
        &self,
        at: BytePlace,
        least: u32,
        limit: u32,
    ) -> Result<Numeral, NumberFault>
        ensures { result ≡ read_number least limit self.now.line.now at.0 }
    {
        let first = self.read_digit(at)?;
        let rest = &self.line[at.0..];
        let count = digit_count(rest);
        if leading_zero(first, count) {
            return Err(NumberFault::LeadingZero(at));
        }
        if count > 5 {
            return Err(NumberFault::TooManyDigits(at));
        }
        let value = digits_worth(&rest[..count]);
        if value < least || value >= limit {
            return Err(NumberFault::OutOfRange(at));
        }
        Ok(Numeral {
            start: at,
            value,
            after: BytePlace(at.0 + count),
        })
    }
}
