// Rows in memory, and the steps of elimination on one row. A row has 64 weights, of which the first n count.
ghost use Rattle.std.specs.Prelude.{◌≡◌, ℕ, ◌<◌, ◌≤◌, MatchOption};
ghost use Rattle.field.specs.Sums.{minus, weights_of};

use field::{Element, Field};
use refusal::Member;

// A row of the record, counted from 0.
#[derive(Clone, Copy, PartialEq, Eq, Debug)]
pub struct RowNumber(pub usize);

// A row with its figure, as elimination works on it. Its memory is fixed, since no step may want any.
#[derive(Clone, Copy, PartialEq, Eq, Debug)]
pub struct FiguredRow {
    pub weights: [Element; 64],
    pub figure: Element,
}

// A row of the record: 1 at its pivot, and 0 at the pivots of the others.
#[derive(Clone, Copy, PartialEq, Eq, Debug)]
pub struct RecordRow {
    pub pivot: Member,
    pub row: FiguredRow,
}

// A row that would join, before its figure is known, and the factor that made its pivot 1.
#[derive(Clone, Copy)]
pub struct FreshRow {
    pub row: RecordRow,
    pub factor: Element,
}

// One element less another.
pub fn minus<F: Field>(a: Element, b: Element) -> Element
    ensures is { result.0 ≡ minus F.model a.0 b.0 }
    ensures within { result.0 < F.model.size }
{
    F::add(a, F::neg(b))
}

// One place of a step of elimination. Most weights of a record row are 0, and take nothing away.
fn added<F: Field>(factor: Element, weight: Element, to: Element) -> Element
    requires factor { factor.0 < F.model.size }
    requires to { to.0 < F.model.size }
    ensures is { result.0 ≡ F.model.plus to.0 (F.model.times factor.0 weight.0) }
    ensures within { result.0 < F.model.size }
{
    if weight.0 == 0 {
        return to;
    }
    F::mul_add(factor, weight, to)
}

// `few` stays a clause: a type for the count, which contracts see as the number, was tried. Each use of the count then needs
// an equation in the proofs, and the code a call.
impl FiguredRow {
    ghost use Rattle.echelon.specs.Rows.{CodedRow};
    ghost use Rattle.echelon.specs.Elimination.{cleared, scaled};
    ghost use Rattle.record.specs.Rows.{figured_row, pivoted, figured_record_row, SameRow, NamesNobody, LowestNamed, LowestOther, MadeFresh};

    // Takes away that multiple of `by` which leaves 0 at its pivot, over the first `n` members. Below its pivot `by` is 0.
    pub(crate) fn clear<F: Field>(&mut self, by: &RecordRow, n: usize)
        requires few { n ≤ 64 }
        requires pivot { by.now.pivot.0 < n }
        requires coded { CodedRow F.model n (figured_row self.old) }
        requires by_coded { CodedRow F.model n (figured_record_row by.now) }
        requires by_lowest { (m : ℕ) → m < by.now.pivot.0 → weights_of by.now.row.weights m ≡ 0 }
        ensures is { SameRow n (figured_row self.new) (cleared F.model (pivoted by.now) (figured_row self.old)) }
        ensures coded { CodedRow F.model n (figured_row self.new) }
    {
        if self.weights[by.pivot.0].0 != 0 {
            self.take_away::<F>(by, n);
        }
    }

    // The same, over every weight: apart, so that a row with nothing to take away costs a look and no call.
    #[inline(never)]
    fn take_away<F: Field>(&mut self, by: &RecordRow, n: usize)
        requires few { n ≤ 64 }
        requires pivot { by.now.pivot.0 < n }
        requires coded { CodedRow F.model n (figured_row self.old) }
        requires by_coded { CodedRow F.model n (figured_record_row by.now) }
        requires by_lowest { (m : ℕ) → m < by.now.pivot.0 → weights_of by.now.row.weights m ≡ 0 }
        ensures is { SameRow n (figured_row self.new) (cleared F.model (pivoted by.now) (figured_row self.old)) }
        ensures coded { CodedRow F.model n (figured_row self.new) }
    {
        let pivot = by.pivot.0;
        let opposite = F::neg(self.weights[pivot]);
        for (k, weight) in self.weights[pivot..n].iter_mut().enumerate() {
            *weight = added::<F>(opposite, by.row.weights[pivot + k], *weight);
        }
        self.figure = F::mul_add(opposite, by.row.figure, self.figure);
    }

    // Multiplies the row and its figure, over the first `n` members. Below `from` the row is 0.
    pub(crate) fn scale<F: Field>(&mut self, factor: Element, from: Member, n: usize)
        requires few { n ≤ 64 }
        requires from { from.0 ≤ n }
        requires factor { factor.0 < F.model.size }
        requires zero { (m : ℕ) → m < from.0 → weights_of self.old.weights m ≡ 0 }
        ensures is { SameRow n (figured_row self.new) (scaled F.model factor.0 (figured_row self.old)) }
        ensures coded { CodedRow F.model n (figured_row self.new) }
    {
        for weight in self.weights[from.0..n].iter_mut() {
            *weight = F::mul(factor, *weight);
        }
        self.figure = F::mul(factor, self.figure);
    }

    // The lowest named member.
    pub(crate) fn lowest_named(&self, n: usize) -> Option<Member>
        requires few { n ≤ 64 }
        ensures { LowestNamed n (weights_of self.now.weights) result }
    {
        self.weights[..n]
            .iter()
            .position(|weight| weight.0 != 0)
            .map(Member)
    }

    // The lowest named member other than one.
    pub(crate) fn lowest_other(&self, than: Member, n: usize) -> Option<Member>
        requires few { n ≤ 64 }
        ensures { LowestOther n (weights_of self.now.weights) than.0 result }
    {
        (0..n)
            .find(|m| *m != than.0 && self.weights[*m].0 != 0)
            .map(Member)
    }

    // The row made 1 at its lowest named member, which is then its pivot; none where no member is named.
    pub(crate) fn with_pivot<F: Field>(&self, n: usize) -> Option<FreshRow>
        requires few { n ≤ 64 }
        ensures { MatchOption result (NamesNobody n (weights_of self.now.weights)) (λ x. MadeFresh F.model n (figured_row self.now) x) }
    {
        let pivot = self.lowest_named(n)?;
        let factor = F::inv(self.weights[pivot.0]);
        let mut row = *self;
        row.scale::<F>(factor, pivot, n);
        Some(FreshRow {
            row: RecordRow { pivot, row },
            factor,
        })
    }
}

impl RecordRow {
    ghost use Rattle.echelon.specs.Rows.{CodedRow};
    ghost use Rattle.record.specs.Rows.{figured_record_row, row_without, LowestOther};

    // The lowest member named beside its pivot, once the pivot of `by` is cleared from it. A row that is changed has its
    // pivot below that of `by`, and both are 0 below their pivots.
    pub(crate) fn lowest_other_without<F: Field>(&self, by: &RecordRow, n: usize) -> Option<Member>
        requires few { n ≤ 64 }
        requires pivot { by.now.pivot.0 < n }
        requires coded { CodedRow F.model n (figured_record_row self.now) }
        requires by_coded { CodedRow F.model n (figured_record_row by.now) }
        requires lowest { (m : ℕ) → m < self.now.pivot.0 → weights_of self.now.row.weights m ≡ 0 }
        requires by_lowest { (m : ℕ) → m < by.now.pivot.0 → weights_of by.now.row.weights m ≡ 0 }
        ensures { LowestOther n (row_without F.model by.now self.now) self.now.pivot.0 result }
    {
        let factor = self.row.weights[by.pivot.0];
        if factor.0 == 0 {
            return self.row.lowest_other(self.pivot, n);
        }
        let opposite = F::neg(factor);
        (self.pivot.0 + 1..n)
            .find(|m| F::mul_add(opposite, by.row.weights[*m], self.row.weights[*m]).0 != 0)
            .map(Member)
    }
}

impl FreshRow {
    // The row with its figure.
    pub(crate) fn figured<F: Field>(&self, figure: Element) -> RecordRow
        ensures pivot { result.pivot ≡ self.now.row.pivot }
        ensures weights { result.row.weights ≡ self.now.row.row.weights }
        ensures figure { result.row.figure.0 ≡ F.model.plus self.now.row.row.figure.0 (F.model.times self.now.factor.0 figure.0) }
        ensures within { result.row.figure.0 < F.model.size }
    {
        let mut joining = self.row;
        joining.row.figure = F::mul_add(self.factor, figure, joining.row.figure);
        joining
    }
}
