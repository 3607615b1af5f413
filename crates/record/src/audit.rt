// An audit: a record, and the row that is open until its figure is known.
ghost use Rattle.record.specs.Records.{rec_of};
ghost use Rattle.record.specs.Awaits.{Awaited, Awaited-prop};

use crate::judge::{Admission, Standing};
use crate::record::Record;
use crate::rows::FreshRow;
use checks::CheckedRow;
use field::{Element, Field};
use refusal::{Member, Refusal, Site};

// The row that is open, the number that it is known by, and the row that would join: none where the record fixes it already.
#[derive(Drop)]
pub struct OpenRow<F: Field> {
    permit: u16,
    row: CheckedRow<F>,
    fresh: Option<FreshRow>,
}

// Elimination is done once for a row, when it is opened. What is kept of it stands against this record.
#[derive(Drop)]
pub struct Audit<F: Field> {
    record: Record<F>,
    pending: Option<OpenRow<F>>,
    ghost awaited: { Awaited F.model «record».count (rec_of «record») pending } by { Awaited-prop F.model «record».count (rec_of «record») pending },
}

impl<F: Field> Audit<F> {
    ghost use Rattle.std.specs.Prelude.{◌≡◌, ℕ, Some, None, OnOk, OnErr, IfErr};
    ghost use Rattle.server.specs.Checks.{Lowest};
    ghost use Rattle.checks.specs.CheckedRows.{row_of};
    ghost use Rattle.record.specs.Records.{record_members};
    ghost use Rattle.record.specs.Audits.{audited, opened, PinnedBeside, AnsweredIn};

    // An audit of a record, with no row open.
    pub fn new(record: Record<F>) -> Audit<F>
        ensures record { audited result ≡ «record» }
        ensures none { opened result ≡ None }
    {
        Audit {
            record,
            pending: None,
        }
    }

    // The record, to be read.
    pub fn record(&self) -> &Record<F>
        ensures { result.now ≡ audited self.now }
    {
        &self.record
    }

    // The open row and its permit.
    pub fn opened(&self) -> Option<(u16, CheckedRow<F>)>
        ensures { result ≡ opened self.now }
    {
        self.pending.as_ref().map(|held| (held.permit, held.row))
    }

    // Opens a row in place of the one that is open, if any. Where it would pin a member, the lowest such is the answer.
    pub fn open(&mut self, permit: u16, row: CheckedRow<F>) -> Result<(), Member>
        ensures pinned { IfErr result (λ i. Lowest (PinnedBeside F.model self.old (row_of row)) i.0) }
        ensures free { OnOk result ((i : ℕ) → PinnedBeside F.model self.old (row_of row) i → ⊥) }
        ensures record { audited self.new ≡ audited self.old }
        ensures opened { OnOk result (opened self.new ≡ Some (permit, row)) }
        ensures refused { OnErr result (self.new ≡ self.old) }
    {
        let fresh = match self.record.assess(&row) {
            Standing::Pinning(i) => return Err(i),
            Standing::Fixed(_) => None,
            Standing::Fresh(fresh) => Some(fresh),
        };
        self.pending = Some(OpenRow { permit, row, fresh });
        Ok(())
    }

    // Forgets the open row.
    pub fn close(&mut self)
        ensures record { audited self.new ≡ audited self.old }
        ensures none { opened self.new ≡ None }
    {
        self.pending = None;
    }

    // Takes the open row into the record with its figure, and no row is open then.
    pub fn answer(&mut self, figure: Element) -> Result<Admission, Refusal>
        ensures answered { AnsweredIn self.old figure.0 self.new result }
        ensures count { record_members (audited self.new) ≡ record_members (audited self.old) }
        ensures closed { OnOk result (opened self.new ≡ None) }
        ensures refused { OnErr result (self.new ≡ self.old) }
    {
        let Some(held) = &self.pending else {
            return Err(Refusal::NotTheOpenPermit);
        };
        if figure.0 >= F::size() {
            return Err(Refusal::NotAnElement(Site::Nothing));
        }
        let fresh = held.fresh;
        self.close();
        let Some(fresh) = fresh else {
            return Ok(Admission::Kept);
        };
        self.record.take(&fresh, figure);
        Ok(Admission::Joined)
    }
}
