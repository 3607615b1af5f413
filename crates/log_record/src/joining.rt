// One row of a log joins the record.
ghost use Rattle.std.specs.Prelude.{◌≡◌, ◌<◌, OnOk, OnErr, IfErr};
ghost use Rattle.checks.specs.CheckedRows.{row_of};
ghost use Rattle.record.specs.Records.{record_members, rec_of};
ghost use Rattle.log_record.specs.Joins.{JoinsAfter, RefusedAfter};
ghost use Rattle.echelon.specs.Rows.{row_with};

use checks::CheckedRow;
use field::{Element, Field};
use record::{Judgement, Record};
use refusal::{LogRow, Refusal, Site};

// Takes a row into the record, with the log's figure.
pub(crate) fn join_row<F: Field>(
    held: &mut Record<F>,
    row: &CheckedRow<F>,
    figure: Element,
    number: LogRow,
) -> Result<(), Refusal>
    requires figure { figure.0 < F.model.size }
    ensures count { record_members held.new ≡ record_members held.old }
    ensures kept { OnErr result (rec_of held.new ≡ rec_of held.old) }
    ensures joins { OnOk result (JoinsAfter F.model (record_members held.old) number (rec_of held.old) (row_with (row_of row.now) figure.0) (rec_of held.new)) }
    ensures refused { IfErr result (RefusedAfter F.model (record_members held.old) number (rec_of held.old) (row_with (row_of row.now) figure.0)) }
{
    match held.judge(row) {
        Judgement::Pinning(_) => Err(Refusal::Discloses(Site::OfRow(number))),
        Judgement::Fixed(known) if known != figure => Err(Refusal::OtherFigure(number)),
        Judgement::Fixed(_) => Ok(()),
        Judgement::Free => {
            held.admit(row, figure).unwrap();
            Ok(())
        }
    }
}
