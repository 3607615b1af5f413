// What was found, counted.
use crate::compare::Outcome;
use std::io;
use trials::count_one;

#[derive(Clone, Copy, Default)]
pub(crate) struct Tally {
    logs: usize,
    rows: usize,
    back: usize,
    refused: usize,
    alike: usize,
    otherwise: usize,
}

impl Tally {
    // A log of so many rows, and whether it was read back.
    pub(crate) fn log(&mut self, rows: usize, back: bool) {
        count_one(&mut self.logs);
        self.rows = self.rows.saturating_add(rows);
        if back {
            count_one(&mut self.back);
        }
    }

    pub(crate) fn damaged(&mut self, what: Outcome) {
        match what {
            Outcome::Refused => count_one(&mut self.refused),
            Outcome::Alike => count_one(&mut self.alike),
            Outcome::Otherwise => count_one(&mut self.otherwise),
        }
    }

    pub(crate) fn show(&self, rt: &HostRuntime, field: &str, n: usize) -> io::Result<()> {
        println!(rt;
            "{field}, {n} members: {} logs of {} rows, {} read back and written again the same",
            self.logs, self.rows, self.back,
        )?;
        println!(rt;
            "  a bit turned: {} refused, {} accepted as they are, {} as other bytes",
            self.refused, self.alike, self.otherwise,
        )
    }
}
