// Writing a log: the header, and row after row. The caller lends the rest of the log's buffer.
ghost use Rattle.std.specs.Prelude.{◌≡◌, length, Some, None, OnOk, IfOk, OnErr, IfErr};
ghost use Rattle.refusal.specs.declared.LogRow.{LogRow};
ghost use Rattle.checks.specs.CheckedRows.{row_members, row_of};
ghost use Rattle.buffer.specs.Buffers.{Put};
ghost use Rattle.answer_log.specs.Rows.{header_bytes, row_bytes};
ghost use Rattle.answer_log.specs.Entries.{Reads};
ghost use Rattle.answer_log.specs.Writes.{HeaderWrite, RowWrite};

use crate::parts::Row;
use buffer::put_bytes;
use checks::CheckedRow;
use field::{Element, Field};
use refusal::{Refusal, Site};
use server::is_count;
use std::marker::PhantomData;

// Writes the header of a log of `n` members, and answers how many bytes it has.
pub fn write_header<F: Field>(n: usize, out: &mut [u8]) -> Result<usize, Refusal>
    ensures written { OnOk result (HeaderWrite n (length out.old) None) }
    ensures bytes { IfOk result (λ k. Put (header_bytes F.model n) out.old out.new k) }
    ensures refused { IfErr result (λ e. HeaderWrite n (length out.old) (Some e)) }
    ensures kept { OnErr result (out.new ≡ out.old) }
{
    if !is_count(n) {
        return Err(Refusal::WrongCount);
    }
    put_bytes(&[F::kind(), n as u8], out).ok_or(Refusal::LogFull)
}

// Writes a row with its figure, and answers how many bytes it has. Read back, it is the same row.
pub fn write_row<F: Field>(
    row: &CheckedRow<F>,
    figure: Element,
    out: &mut [u8],
) -> Result<usize, Refusal>
    ensures written { OnOk result (RowWrite F.model (row_members row.now) (row_of row.now) figure.0 (length out.old) None) }
    ensures bytes { IfOk result (λ k. Put (row_bytes F.model (row_members row.now) (row_of row.now) figure.0) out.old out.new k) }
    ensures reads { IfOk result (λ k. (number : LogRow) → Reads F.model (row_members row.now) number out.new (row_of row.now) figure.0 k) }
    ensures refused { IfErr result (λ e. RowWrite F.model (row_members row.now) (row_of row.now) figure.0 (length out.old) (Some e)) }
    ensures kept { OnErr result (out.new ≡ out.old) }
{
    if figure.0 >= F::size() {
        return Err(Refusal::NotAnElement(Site::Nothing));
    }
    let row = Row::<F> {
        weights: row.weights(),
        figure,
        field: PhantomData,
    };
    let length = row.length();
    if out.len() < length {
        return Err(Refusal::LogFull);
    }
    row.put(out);
    Ok(length)
}
