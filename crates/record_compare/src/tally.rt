// What was found, counted.
use crate::ranks::Verdict;
use std::io;
use trials::count_one;

#[derive(Clone, Copy, Default)]
pub(crate) struct Tally {
    rows: usize,
    agree: usize,
    nobody: usize,
    fixed: usize,
    pinning: usize,
    free: usize,
    witnesses: usize,
}

impl Tally {
    // A row, and whether the two agree on it.
    pub(crate) fn row(&mut self, verdict: Verdict, agree: bool) {
        count_one(&mut self.rows);
        if agree {
            count_one(&mut self.agree);
        }
        match verdict {
            Verdict::NamesNobody => count_one(&mut self.nobody),
            Verdict::Fixed => count_one(&mut self.fixed),
            Verdict::Pinning(_) => count_one(&mut self.pinning),
            Verdict::Free => count_one(&mut self.free),
        }
    }

    // A witness that fits.
    pub(crate) fn witness(&mut self) {
        count_one(&mut self.witnesses);
    }

    pub(crate) fn show(&self, rt: &HostRuntime, field: &str, members: usize) -> io::Result<()> {
        println!(rt;
            "{field}, {members} members: {} rows, {} agree, {} witnesses fit",
            self.rows, self.agree, self.witnesses,
        )?;
        println!(rt;
            "  {} free, {} fixed, {} pinning, {} naming nobody",
            self.free, self.fixed, self.pinning, self.nobody,
        )
    }
}
