// Numbers in decimal, each after a space, in a buffer that has room for them.
ghost use Rattle.std.specs.Prelude.{◌≡◌, ◌+◌, ◌<◌, ◌≤◌, length, decimal, MatchOption};
ghost use Rattle.server.specs.Tables.{codes};
ghost use Rattle.buffer.specs.Buffers.{Put};
ghost use Rattle.answer_text.specs.AnswerLines.{after_space, spaced};

use buffer::{digit_count, put_decimal};
use field::Element;

// How many bytes a number takes after a space.
pub(crate) fn spaced_length(value: usize) -> usize
    ensures is { result ≡ length (after_space value) }
    ensures few { result ≤ 21 }
{
    1 + digit_count(value)
}

// Writes a number. Not by `write!`, whose contract says what was written where it succeeds, and not where it succeeds.
pub(crate) fn put_number(value: usize, out: &mut [u8]) -> usize
    requires { length (decimal value) ≤ length out.old }
    ensures { Put (decimal value) out.old out.new result }
{
    put_decimal(value, out).unwrap()
}

// Writes a space and a number.
pub(crate) fn put_spaced(value: usize, out: &mut [u8]) -> usize
    requires { length (after_space value) ≤ length out.old }
    ensures { Put (after_space value) out.old out.new result }
{
    out[0] = b' ';
    1 + put_number(value, &mut out[1..])
}

// The room that is left after the elements, each after a space; none where they do not fit.
pub(crate) fn room_after_elements(elements: &[Element], room: usize) -> Option<usize>
    ensures { MatchOption result (room < length (spaced (codes elements.now))) (λ left. left + length (spaced (codes elements.now)) ≡ room) }
{
    elements.iter().try_fold(room, |left, element| {
        left.checked_sub(spaced_length(element.0 as usize))
    })
}

// Writes the elements, each after a space. The rest of the buffer is lent to each in turn, so the place is added up.
pub(crate) fn put_elements(elements: &[Element], out: &mut [u8]) -> usize
    requires { length (spaced (codes elements.now)) ≤ length out.old }
    ensures { Put (spaced (codes elements.now)) out.old out.new result }
{
    let mut at = 0;
    for element in elements {
        at += put_spaced(element.0 as usize, &mut out[at..]);
    }
    at
}
