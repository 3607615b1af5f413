// Lines of a mark and two numbers: refusals and stops.
ghost use Rattle.std.specs.Prelude.{◌≡◌, ◌≤◌, ◌++◌, length};
ghost use Rattle.refusal.specs.Numbered.{number, detail};
ghost use Rattle.buffer.specs.Buffers.{Put, Writes};
ghost use Rattle.answer_text.specs.AnswerLines.{pair_text, newline, refusal_line_lem, stop_line_lem};

use crate::numbers::{put_spaced, spaced_length};
use refusal::Refusal;

// A mark and two numbers.
#[derive(Clone, Copy)]
pub(crate) struct Pair {
    mark: u8,
    first: usize,
    second: usize,
}

impl Pair {
    // A refusal's number, and what comes with it.
    pub(crate) fn refused(refusal: &Refusal) -> Pair
        ensures { result ≡ record { mark = 45; first = number refusal.now; second = detail refusal.now } }
    {
        Pair {
            mark: b'-',
            first: usize::from(refusal.number()),
            second: refusal.detail(),
        }
    }

    // How many bytes the mark and the numbers take.
    pub(crate) fn length(self) -> usize
        ensures is { result ≡ length (pair_text self.mark self.first self.second) }
        ensures few { result ≤ 43 }
    {
        1 + spaced_length(self.first) + spaced_length(self.second)
    }

    // Writes the mark and the numbers. Not by `put_elements`: they may be greater than the code of an element.
    pub(crate) fn put(self, out: &mut [u8]) -> usize
        requires { length (pair_text self.mark self.first self.second) ≤ length out.old }
        ensures { Put (pair_text self.mark self.first self.second) out.old out.new result }
    {
        out[0] = self.mark;
        let at = 1 + put_spaced(self.first, &mut out[1..]);
        at + put_spaced(self.second, &mut out[at..])
    }

    // Writes them as a line.
    fn write(self, out: &mut [u8]) -> Option<usize>
        ensures { Writes (pair_text self.mark self.first self.second ++ newline) out.old out.new result }
    {
        if out.len() < self.length() + 1 {
            return None;
        }
        let at = self.put(out);
        out[at] = b'\n';
        Some(at + 1)
    }
}

// Writes the line of a refused table file to the front of `out`, and answers how many bytes it has. Where it does not
// fit, the answer is none and nothing is written.
pub fn write_refusal(refusal: &Refusal, out: &mut [u8]) -> Option<usize>
    ensures { Writes (refusal_line_lem (number refusal.now) (detail refusal.now)) out.old out.new result }
{
    Pair::refused(refusal).write(out)
}

// Writes the line of a stop before a line of query text, in the same way.
pub fn write_stop(stop: &Refusal, line: usize, out: &mut [u8]) -> Option<usize>
    ensures { Writes (stop_line_lem (number stop.now) line) out.old out.new result }
{
    let pair = Pair {
        mark: b'!',
        first: usize::from(stop.number()),
        second: line,
    };
    pair.write(out)
}
