// A list of logs, each read for a server of so many members.
use field::Field;
use log_record::{ReadLog, read_record, rewrite_accepted};
use record::{Record, Room, RowNumber};
use shown::{Answered, Row};
use std::alloc::{AllocError, Global};
use std::io;

// The name, the count of members, and the log: a tuple, so that a list of logs has one line for each.
pub(crate) type Case<'a> = (&'a str, usize, &'a [u8]);

// Whether a log is written again as the bytes that it was read from.
fn again<F: Field>(heap: Global, log: &[u8], n: usize) -> Result<bool, AllocError> {
    let mut out = [0; 64];
    let written = rewrite_accepted::<F>(Room::new(heap)?, n, log, &mut out);
    Ok(written.is_ok_and(|length| out.get(..length) == Some(log)))
}

fn rows<F: Field>(rt: &HostRuntime, rec: &Record<F>) -> io::Result<()> {
    for found in (0..rec.row_count()).filter_map(|k| rec.row(RowNumber(k))) {
        let row = Row {
            weights: &found.row.weights[..rec.count()],
            figure: found.row.figure,
        };
        println!(rt; "  {row}")?;
    }
    Ok(())
}

fn one<F: Field>(rt: &HostRuntime, case: &str, n: usize, log: &[u8]) -> io::Result<()> {
    let ReadLog { record, refusal } = read_record::<F>(Room::new(rt.alloc())?, n, log);
    let answer = match refusal {
        Some(refusal) => Err(refusal),
        None if again::<F>(rt.alloc(), log, n)? => Ok("accepted, and written again the same"),
        None => Ok("accepted, and written again otherwise"),
    };
    println!(rt; "{case}: {}", Answered(answer))?;
    rows(rt, &record)
}

pub(crate) fn all<F: Field>(rt: &HostRuntime, title: &str, cases: &[Case]) -> io::Result<()> {
    println!(rt; "{title}")?;
    for (case, n, log) in cases {
        one::<F>(rt, case, *n, log)?;
    }
    Ok(())
}
