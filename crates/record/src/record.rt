// The record itself, and what it is asked. What holds of every record stands in its type.
ghost use Rattle.std.specs.Prelude.{◌≡◌, ℕ, ◌<◌, ◌≤◌, [], length, vec_len, vec_capacity, Some, None, MatchOption, OnOk, OnErr, IfErr};
ghost use Rattle.field.specs.Sums.{Vector, Codes, weights_of};
ghost use Rattle.echelon.specs.Rows.{CodedRow, Fits};
ghost use Rattle.echelon.specs.Reduced.{at, figured, all_figured, Reduced, Same, NoneAlone};
ghost use Rattle.echelon.specs.Elimination.{leftover, joined};
ghost use Rattle.record.specs.Rows.{figured_row, pivoted, figured_record_row, all_pivoted, SameRow, AllCleared};

use crate::judge::{Admission, Judgement, Standing};
use crate::room::Room;
use crate::rows::{FiguredRow, FreshRow, RecordRow, RowNumber, minus};
use checks::CheckedRow;
use field::{Element, Field};
use refusal::{Member, Refusal, Site};
use server::bounded_count;
use std::marker::PhantomData;

// Rows by rising pivot, with room for as many as there are members.
#[derive(Drop)]
pub struct Record<F: Field> {
    count: usize,
    rows: Vec<RecordRow>,
    field: PhantomData<F>,
    ghost members: { (1 ≤ count) × (count ≤ 64) },
    ghost reduced: { Reduced F.model count (all_pivoted rows.items) },
    ghost none_alone: { NoneAlone count (all_pivoted rows.items) },
    ghost room: { count ≤ vec_capacity rows },
}

// Clears the pivot of `by` from every row.
fn clear_rows<F: Field>(rows: &mut Vec<RecordRow>, by: &RecordRow, n: usize)
    requires few { n ≤ 64 }
    requires pivot { by.now.pivot.0 < n }
    requires by_coded { CodedRow F.model n (figured_record_row by.now) }
    requires by_lowest { (m : ℕ) → m < by.now.pivot.0 → weights_of by.now.row.weights m ≡ 0 }
    requires coded { (a : ℕ) → a < vec_len rows.old → CodedRow F.model n (figured (at (all_pivoted rows.old.items) a)) }
    ensures len { vec_len rows.new ≡ vec_len rows.old }
    ensures cap { vec_capacity rows.new ≡ vec_capacity rows.old }
    ensures is { AllCleared F.model n (pivoted by.now) (all_pivoted rows.old.items) (all_pivoted rows.new.items) }
{
    for row in rows.iter_mut() {
        row.row.clear::<F>(by, n);
    }
}

impl<F: Field> Record<F> {
    ghost use Rattle.server.specs.Checks.{Lowest};
    ghost use Rattle.server.specs.Tables.{bounded};
    ghost use Rattle.echelon.specs.Witness.{Free, Leads, Witness};
    ghost use Rattle.checks.specs.Checks.{WitnessCheck};
    ghost use Rattle.checks.specs.CheckedRows.{row_of};
    ghost use Rattle.record.specs.Records.{record_members, rec_of, AloneBeside, MayTake, JoinFits, JoinAdds, Along};
    ghost use Rattle.record.specs.Judged.{Judged, Admitted};
    ghost use Rattle.record.specs.Standings.{unfigured, Stands};

    // An empty record for a count of members, which every server has between 1 and 64.
    pub fn new(room: Room, count: usize) -> Record<F>
        ensures count { record_members result ≡ bounded count }
        ensures empty { rec_of result ≡ [] }
    {
        Record {
            count: bounded_count(count),
            rows: room.into_rows(),
            field: PhantomData,
        }
    }

    // Forgets every row.
    pub fn clear(&mut self)
        ensures count { record_members self.new ≡ record_members self.old }
        ensures empty { rec_of self.new ≡ [] }
    {
        self.rows.clear();
    }

    // How many members there are.
    pub fn count(&self) -> usize
        ensures { result ≡ record_members self.now }
    {
        self.count
    }

    // How many rows the record has.
    pub fn row_count(&self) -> usize
        ensures { result ≡ length (rec_of self.now) }
    {
        self.rows.len()
    }

    // One row of the record; none where it has no such row.
    pub fn row(&self, k: RowNumber) -> Option<RecordRow>
        ensures { MatchOption result (length (rec_of self.now) ≤ k.0) (λ x. (k.0 < length (rec_of self.now)) × (at (rec_of self.now) k.0 ≡ pivoted x)) }
    {
        self.rows.as_slice().get(k.0).copied()
    }

    // A row without its figure, less what the record rows take from it.
    fn leftover(&self, row: &CheckedRow<F>) -> FiguredRow
        ensures is { SameRow (record_members self.now) (figured_row result) (leftover F.model (rec_of self.now) (unfigured (row_of row.now))) }
        ensures coded { CodedRow F.model (record_members self.now) (figured_row result) }
    {
        let mut left = FiguredRow {
            weights: row.places(),
            figure: Element(0),
        };
        let rows = self.rows.as_slice();
        for by in rows {
            left.clear::<F>(by, self.count);
        }
        left
    }

    // The lowest member that stands alone once `fresh` has joined.
    fn lowest_alone(&self, fresh: &RecordRow) -> Option<Member>
        requires pivot { fresh.now.pivot.0 < record_members self.now }
        requires coded { CodedRow F.model (record_members self.now) (figured (pivoted fresh.now)) }
        requires lowest { (m : ℕ) → m < fresh.now.pivot.0 → weights_of fresh.now.row.weights m ≡ 0 }
        requires own { weights_of fresh.now.row.weights fresh.now.pivot.0 ≡ 1 }
        requires others { (a : ℕ) → a < length (rec_of self.now) → weights_of fresh.now.row.weights (at (rec_of self.now) a).pivot ≡ 0 }
        ensures { MatchOption result ((i : ℕ) → AloneBeside self.now (pivoted fresh.now) i → ⊥) (λ i. Lowest (AloneBeside self.now (pivoted fresh.now)) i.0) }
    {
        for row in self.rows.as_slice() {
            let other = row.lowest_other_without::<F>(fresh, self.count);
            if other.is_none() {
                return Some(row.pivot);
            }
        }
        let other = fresh.row.lowest_other(fresh.pivot, self.count);
        other.is_none().then_some(fresh.pivot)
    }

    // What a row would do to the record, whatever its figure.
    pub(crate) fn assess(&self, row: &CheckedRow<F>) -> Standing
        ensures { Stands F.model (record_members self.now) (rec_of self.now) (row_of row.now) result }
    {
        let left = self.leftover(row);
        let Some(fresh) = left.with_pivot::<F>(self.count) else {
            return Standing::Fixed(left.figure);
        };
        match self.lowest_alone(&fresh.row) {
            Some(i) => Standing::Pinning(i),
            None => Standing::Fresh(fresh),
        }
    }

    // How a row stands to the record, in the sense of tables.
    pub fn judge(&self, row: &CheckedRow<F>) -> Judgement
        ensures { Judged F.model (record_members self.now) (rec_of self.now) (row_of row.now) result }
    {
        match self.assess(row) {
            Standing::Fixed(left) => Judgement::Fixed(F::neg(left)),
            Standing::Pinning(i) => Judgement::Pinning(i),
            Standing::Fresh(_) => Judgement::Free,
        }
    }

    // How many rows have a pivot below a member: the place of a row with that pivot.
    fn place_of(&self, pivot: Member) -> RowNumber
        ensures within { result.0 ≤ length (rec_of self.now) }
        ensures below { (a : ℕ) → a < result.0 → (at (rec_of self.now) a).pivot < pivot.0 }
        ensures above { (a : ℕ) → result.0 ≤ a → a < length (rec_of self.now) → pivot.0 ≤ (at (rec_of self.now) a).pivot }
    {
        RowNumber(
            self.rows
                .as_slice()
                .partition_point(|row| row.pivot < pivot),
        )
    }

    // Puts a row in before row `k`, and clears its pivot from the others.
    fn join(&mut self, fresh: RecordRow, k: RowNumber)
        requires place { k.0 ≤ length (rec_of self.old) }
        requires pivot { fresh.pivot.0 < record_members self.old }
        requires coded { CodedRow F.model (record_members self.old) (figured_record_row fresh) }
        requires reduced { Reduced F.model (record_members self.old) (joined F.model (pivoted fresh) k.0 (rec_of self.old)) }
        requires none_alone { NoneAlone (record_members self.old) (joined F.model (pivoted fresh) k.0 (rec_of self.old)) }
        ensures count { record_members self.new ≡ record_members self.old }
        ensures is { Same (record_members self.old) (joined F.model (pivoted fresh) k.0 (rec_of self.old)) (rec_of self.new) }
    {
        clear_rows::<F>(&mut self.rows, &fresh, self.count);
        self.rows.insert(k.0, fresh).unwrap();
    }

    // Takes in a row that may join, with its figure. The clause holds of every row that `fresh` was worked out of.
    pub(crate) fn take(&mut self, fresh: &FreshRow, figure: Element)
        requires figure { figure.0 < F.model.size }
        requires joins { (w : Vector) × MayTake self.old w fresh.now }
        ensures count { record_members self.new ≡ record_members self.old }
        ensures fits { (w : Vector) → MayTake self.old w fresh.now → JoinFits self.old w figure.0 self.new }
        ensures adds { (w : Vector) → MayTake self.old w fresh.now → JoinAdds self.old w figure.0 self.new }
    {
        let row = fresh.figured::<F>(figure);
        let k = self.place_of(row.pivot);
        self.join(row, k);
    }

    // Takes a row with its figure into the record. Where that would pin a member, it is refused, and a row that is
    // fixed already changes nothing.
    pub fn admit(&mut self, row: &CheckedRow<F>, figure: Element) -> Result<Admission, Refusal>
        ensures admitted { Admitted F.model (record_members self.old) (rec_of self.old) (row_of row.now) figure.0 (rec_of self.new) result }
        ensures count { record_members self.new ≡ record_members self.old }
    {
        if figure.0 >= F::size() {
            return Err(Refusal::NotAnElement(Site::Nothing));
        }
        match self.assess(row) {
            Standing::Fixed(_) => Ok(Admission::Kept),
            Standing::Pinning(i) => Err(Refusal::Discloses(Site::OfMember(i))),
            Standing::Fresh(fresh) => {
                self.take(&fresh, figure);
                Ok(Admission::Joined)
            }
        }
    }

    // The free member and the factor that a member and an element call for.
    fn lead(&self, member: Member, element: Element) -> (Member, Element)
        requires member { member.0 < record_members self.now }
        requires element { element.0 < F.model.size }
        ensures leads { Leads F.model (record_members self.now) (rec_of self.now) member.0 element.0 result.0.0 result.1.0 }
        ensures below { result.0.0 < record_members self.now }
        ensures free { Free (rec_of self.now) result.0.0 }
        ensures factor { result.1.0 < F.model.size }
    {
        let Ok(k) = self
            .rows
            .as_slice()
            .binary_search_by_key(&member, |row| row.pivot)
        else {
            return (member, element);
        };
        let row = &self.rows[k];
        let free = row.row.lowest_other(row.pivot, self.count).unwrap();
        let share = F::inv(row.row.weights[free.0]);
        (free, F::mul(minus::<F>(row.row.figure, element), share))
    }

    // Writes a table that fits the record, moved by `factor` along the direction of a free member.
    fn fill(&self, free: Member, factor: Element, out: &mut [Element])
        requires length { length out.old ≡ record_members self.now }
        requires below { free.0 < record_members self.now }
        requires free { Free (rec_of self.now) free.0 }
        requires factor { factor.0 < F.model.size }
        ensures { Along F.model (record_members self.now) (rec_of self.now) free.0 factor.0 (weights_of out.new) }
    {
        out.fill(Element(0));
        out[free.0] = factor;
        for row in self.rows.as_slice() {
            let step = F::neg(row.row.weights[free.0]);
            out[row.pivot.0] = F::add(row.row.figure, F::mul(factor, step));
        }
    }

    // Fills `out` with the witness for a member and an element.
    pub fn witness(
        &self,
        member: Member,
        element: Element,
        out: &mut [Element],
    ) -> Result<(), Refusal>
        ensures passed { OnOk result (WitnessCheck F.model (record_members self.now) member.0 element.0 (length out.old) None) }
        ensures refused { IfErr result (λ e. WitnessCheck F.model (record_members self.now) member.0 element.0 (length out.old) (Some e)) }
        ensures witness { OnOk result (Witness F.model (record_members self.now) (rec_of self.now) member.0 element.0 (weights_of out.new)) }
        ensures element { OnOk result (weights_of out.new member.0 ≡ element.0) }
        ensures codes { OnOk result (Codes F.model (record_members self.now) (weights_of out.new)) }
        ensures fits { OnOk result (Fits F.model (record_members self.now) (all_figured (rec_of self.now)) (weights_of out.new)) }
        ensures kept { OnErr result (out.new ≡ out.old) }
    {
        if member.0 >= self.count {
            return Err(Refusal::NoSuchMember);
        }
        if element.0 >= F::size() {
            return Err(Refusal::NotAnElement(Site::Nothing));
        }
        if out.len() != self.count {
            return Err(Refusal::WrongRowLength);
        }
        let (free, factor) = self.lead(member, element);
        self.fill(free, factor, out);
        Ok(())
    }
}
