// A log that is read back, and one that was damaged.
use answer_log::rewrite;
use field::Field;
use log_record::{ReadLog, read_record};
use record::{Record, Room, RowNumber};
use std::alloc::{AllocError, Global};

// What became of a damaged log.
#[derive(Clone, Copy)]
pub(crate) enum Outcome {
    Refused,
    // Accepted, and written again as the damaged bytes, or otherwise.
    Alike,
    Otherwise,
}

fn same_rows<F: Field>(a: &Record<F>, b: &Record<F>) -> bool {
    a.row_count() == b.row_count()
        && (0..a.row_count())
            .map(RowNumber)
            .all(|k| a.row(k) == b.row(k))
}

// Whether a log is written again as the same bytes.
fn again<F: Field>(log: &[u8], n: usize) -> bool {
    let mut out = [0; 2048];
    rewrite::<F>(log, n, &mut out).is_ok_and(|written| out.get(..written) == Some(log))
}

// Whether a log gives back the record of the rows that were written, and is written again the same.
pub(crate) fn read_back<F: Field>(
    heap: Global,
    rec: &Record<F>,
    log: &[u8],
    n: usize,
) -> Result<bool, AllocError> {
    let ReadLog { record, refusal } = read_record::<F>(Room::new(heap)?, n, log);
    Ok(refusal.is_none() && same_rows(rec, &record) && again::<F>(log, n))
}

pub(crate) fn damaged<F: Field>(heap: Global, log: &[u8], n: usize) -> Result<Outcome, AllocError> {
    let ReadLog { record: _, refusal } = read_record::<F>(Room::new(heap)?, n, log);
    Ok(match refusal {
        Some(_) => Outcome::Refused,
        None if again::<F>(log, n) => Outcome::Alike,
        None => Outcome::Otherwise,
    })
}
