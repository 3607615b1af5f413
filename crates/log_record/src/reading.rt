// A whole log, read into a record.
ghost use Rattle.std.specs.Prelude.{◌≡◌, ◌≢◌, List, [], drop, Some, None, OnOk, IfErr};
ghost use Rattle.server.specs.Checks.{Count};
ghost use Rattle.server.specs.Tables.{bounded};
ghost use Rattle.echelon.specs.Rows.{Figured};
ghost use Rattle.echelon.specs.Reduced.{ReducedForm};
ghost use Rattle.record.specs.Records.{record_members, rec_of};
ghost use Rattle.log_record.specs.Joins.{RowsJoin, RowsRead, LogRecord, LogRead};

use crate::joining::join_row;
use answer_log::{LogRows, read_header};
use field::Field;
use record::{Record, Room};
use refusal::{LogRow, Refusal};

// A log as it was read: the record of its rows, and why it was refused, if it was. The record is then empty. No Result:
// there is a record in either case.
#[derive(Drop)]
pub struct ReadLog<F: Field> {
    pub record: Record<F>,
    pub refusal: Option<Refusal>,
}

// Takes row after row of a log into an empty record.
fn read_rows<F: Field>(held: &mut Record<F>, log: &[u8]) -> Result<(), Refusal>
    requires empty { rec_of held.old ≡ [] }
    ensures count { record_members held.new ≡ record_members held.old }
    ensures joins { OnOk result (RowsRead F.model (record_members held.old) log.now (rec_of held.new)) }
    ensures refused { IfErr result (λ e. RowsJoin F.model (record_members held.old) 0 [] (drop 2 log.now) (Some e) []) }
{
    let n = held.count();
    for (row, entry) in LogRows::<F>::new(log, n).enumerate() {
        let entry = entry?;
        join_row(held, &entry.row, entry.figure, LogRow(row))?;
    }
    Ok(())
}

// Header and rows of a log for a server of `n` members.
fn read_log<F: Field>(held: &mut Record<F>, n: usize, log: &[u8]) -> Result<(), Refusal>
    requires empty { rec_of held.old ≡ [] }
    requires count { record_members held.old ≡ bounded n }
    ensures count { record_members held.new ≡ bounded n }
    ensures log { OnOk result (LogRead F.model n log.now (rec_of held.new)) }
    ensures refused { IfErr result (λ e. LogRecord F.model n log.now (Some e) []) }
{
    read_header::<F>(log, n)?;
    read_rows(held, log)
}

// Reads a log for a server of `n` members. Its rows join the record with the log's figures; no table is looked at.
pub fn read_record<F: Field>(room: Room, n: usize, log: &[u8]) -> ReadLog<F>
    ensures count { record_members result.record ≡ bounded n }
    ensures log { (given : List Figured) × LogRecord F.model n log.now result.refusal given × ReducedForm F.model n given (rec_of result.record) }
    ensures empty { result.refusal ≢ None → rec_of result.record ≡ [] }
{
    let mut record = Record::new(room, n);
    let refusal = match read_log::<F>(&mut record, n, log) {
        Ok(_) => None,
        Err(e) => {
            record.clear();
            Some(e)
        }
    };
    ReadLog { record, refusal }
}
