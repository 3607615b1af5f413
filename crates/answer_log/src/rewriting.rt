// A whole log: checked, and written again.
ghost use Rattle.std.specs.Prelude.{◌≡◌, ◌≤◌, length, take, drop, Some, None, OnOk, IfOk, OnErr, IfErr};
ghost use Rattle.buffer.specs.Buffers.{Put, Front, onto};
ghost use Rattle.answer_log.specs.Logs.{RowsCheck, LogCheck, RewriteCheck};

use crate::parts::Row;
use crate::reading::read_header;
use crate::rows::LogRows;
use crate::writing::write_header;
use field::Field;
use refusal::Refusal;
use std::marker::PhantomData;

// Checks a log, header and rows, for a server of `n` members.
pub fn check_log<F: Field>(bytes: &[u8], n: usize) -> Result<(), Refusal>
    ensures passed { OnOk result (LogCheck F.model n bytes.now None) }
    ensures refused { IfErr result (λ e. LogCheck F.model n bytes.now (Some e)) }
{
    read_header::<F>(bytes, n)?;
    for entry in LogRows::<F>::new(bytes, n) {
        entry?;
    }
    Ok(())
}

// Writes the rows of a log that is in order again, each to its own place.
fn rewrite_rows<F: Field>(bytes: &[u8], n: usize, out: &mut [u8])
    requires rows { RowsCheck F.model n 0 (drop 2 bytes.now) None }
    requires header { Front out.old out.old (take 2 bytes.now) 2 }
    requires room { length bytes.now ≤ length out.old }
    ensures { out.new ≡ onto bytes.now out.old }
{
    // A row's place is not in its entry, and the rest of the buffer is lent from there on.
    let mut at = 2;
    for entry in LogRows::<F>::new(bytes, n) {
        let Ok(entry) = entry else {
            return;
        };
        let row = Row::<F> {
            weights: entry.row.weights(),
            figure: entry.figure,
            field: PhantomData,
        };
        row.put(&mut out[at..]);
        at = entry.next;
    }
}

// Reads a log and writes header and rows again, to the front of `out`: the same bytes. Answers how many.
pub fn rewrite<F: Field>(bytes: &[u8], n: usize, out: &mut [u8]) -> Result<usize, Refusal>
    ensures written { OnOk result (RewriteCheck F.model n bytes.now (length out.old) None) }
    ensures bytes { IfOk result (λ k. Put bytes.now out.old out.new k) }
    ensures refused { IfErr result (λ e. RewriteCheck F.model n bytes.now (length out.old) (Some e)) }
    ensures kept { OnErr result (out.new ≡ out.old) }
{
    check_log::<F>(bytes, n)?;
    if out.len() < bytes.len() {
        return Err(Refusal::LogFull);
    }
    write_header::<F>(n, out)?;
    rewrite_rows::<F>(bytes, n, out);
    Ok(bytes.len())
}
