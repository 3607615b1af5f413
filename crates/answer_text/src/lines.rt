// The line that a line of query text prints.
ghost use Rattle.std.specs.Prelude.{◌≡◌, ◌+◌, ◌<◌, ◌≤◌, ◌∷◌, ◌++◌, length, MatchOption};
ghost use Rattle.buffer.specs.Buffers.{Put, Writes};
ghost use Rattle.answer_text.specs.AnswerLines.{told_text, newline, answer_line, told_of};

use crate::answers::Answer;
use crate::numbers::{put_elements, put_number, put_spaced, room_after_elements, spaced_length};
use crate::pairs::Pair;
use buffer::digit_count;

// The room that is left after the text of an answer; none where it does not fit.
fn room_after_text(answer: &Answer, room: usize) -> Option<usize>
    ensures { MatchOption result (room < length (told_text (told_of answer.now)))
        (λ left. left + length (told_text (told_of answer.now)) ≡ room) }
{
    match answer {
        Answer::Figure(value) => room.checked_sub(1 + spaced_length(value.0 as usize)),
        Answer::Granted => room.checked_sub(1),
        Answer::Witness(elements) => room_after_elements(elements, room.checked_sub(1)?),
        Answer::Refused(e) => room.checked_sub(Pair::refused(e).length()),
    }
}

// Writes the text of an answer.
fn put_text(answer: &Answer, out: &mut [u8]) -> usize
    requires { length (told_text (told_of answer.now)) ≤ length out.old }
    ensures { Put (told_text (told_of answer.now)) out.old out.new result }
{
    match answer {
        Answer::Figure(value) => {
            out[0] = b'=';
            1 + put_spaced(value.0 as usize, &mut out[1..])
        }
        Answer::Granted => {
            out[0] = b'+';
            1
        }
        Answer::Witness(elements) => {
            out[0] = b'w';
            1 + put_elements(elements, &mut out[1..])
        }
        Answer::Refused(e) => Pair::refused(e).put(out),
    }
}

// Writes what comes after a line's number: a space, the text of the answer, a newline.
fn put_rest(answer: &Answer, out: &mut [u8]) -> usize
    requires { 2 + length (told_text (told_of answer.now)) ≤ length out.old }
    ensures { Put (32 ∷ (told_text (told_of answer.now) ++ newline)) out.old out.new result }
{
    out[0] = b' ';
    let at = 1 + put_text(answer, &mut out[1..]);
    out[at] = b'\n';
    at + 1
}

// Writes the line that a line of query text prints to the front of `out`, and answers how many bytes it has. Where it
// does not fit, the answer is none and nothing is written.
pub fn write_answer(line: usize, answer: &Answer, out: &mut [u8]) -> Option<usize>
    ensures { Writes (answer_line line (told_of answer.now)) out.old out.new result }
{
    let rest = out.len().checked_sub(digit_count(line) + 2)?;
    room_after_text(answer, rest)?;
    let at = put_number(line, out);
    Some(at + put_rest(answer, &mut out[at..]))
}
