// The rows of a log, one after another.
ghost use Rattle.std.specs.Prelude.{◌≡◌, ◌-◌, ◌≤◌, length};
ghost use Rattle.std.specs.Iterator.{at_most};

use crate::reading::{LogEntry, read_row};
use field::Field;
use refusal::{LogRow, Refusal};
use std::marker::PhantomData;

// The rows from a place of a log on, for a server of `n` members. The first that is refused is the last.
#[derive(Drop)]
pub struct LogRows<'a, F> {
    bytes: &'a [u8],
    n: usize,
    at: usize,
    row: usize,
    field: PhantomData<F>,
    ghost counted: { row ≤ at },
}

impl<'a, F: Field> LogRows<'a, F> {
    // All rows of a log, which begin behind its header.
    pub fn new(bytes: &'a [u8], n: usize) -> Self
        ensures bytes { result.bytes.now ≡ bytes.now }
        ensures count { result.n ≡ n }
        ensures first { (result.at ≡ 2) × (result.row ≡ 0) }
    {
        LogRows {
            bytes,
            n,
            at: 2,
            row: 0,
            field: PhantomData,
        }
    }
}

impl<'a, F: Field> Iterator for LogRows<'a, F> {
    ghost use Rattle.answer_log.specs.Steps.{Next};

    type Item = Result<LogEntry<F>, Refusal>;

    ghost next_gives = { Next F.model };

    ghost remaining = { λ s. at_most (length s.bytes.now - s.at) };

    fn next(&mut self) -> Option<Result<LogEntry<F>, Refusal>> {
        if self.at >= self.bytes.len() {
            return None;
        }
        let entry = read_row::<F>(self.bytes, self.at, self.n, LogRow(self.row));
        self.at = entry.as_ref().map_or(self.bytes.len(), |entry| entry.next);
        self.row += 1;
        Some(entry)
    }
}
