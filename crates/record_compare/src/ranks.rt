// The plain way to judge a row: ranks of lists of rows, each by elimination from scratch.
ghost use Rattle.std.specs.Prelude.{◌<◌};

use crate::given::Figured;
use crate::rows::{NOBODY, Row, alone};
use field::{Element, Field};
use record::{Admission, Judgement};
use refusal::{Member, Refusal, Site};
use std::alloc::{AllocError, Global};
use std::array;

// How a row stands to the rows before it. No Result: judging and admitting refuse different ones of these.
#[derive(Clone, Copy)]
pub(crate) enum Verdict {
    NamesNobody,
    Fixed,
    // The lowest member that would be pinned.
    Pinning(Member),
    Free,
}

impl Verdict {
    // How the record is to judge such a row. A fixed row has the table's own figure.
    pub(crate) fn judgement(self, figure: Element) -> Result<Judgement, Refusal> {
        match self {
            Verdict::NamesNobody => Err(Refusal::NoMemberNamed(Site::Nothing)),
            Verdict::Fixed => Ok(Judgement::Fixed(figure)),
            Verdict::Pinning(member) => Ok(Judgement::Pinning(member)),
            Verdict::Free => Ok(Judgement::Free),
        }
    }

    // What is to become of it.
    pub(crate) fn admission(self) -> Result<Admission, Refusal> {
        match self {
            Verdict::NamesNobody => Err(Refusal::NoMemberNamed(Site::Nothing)),
            Verdict::Fixed => Ok(Admission::Kept),
            Verdict::Pinning(member) => Err(Refusal::Discloses(Site::OfMember(member))),
            Verdict::Free => Ok(Admission::Joined),
        }
    }
}

// Takes that multiple of `by` from a row which leaves 0 at member `m`.
fn without<F: Field>(row: &Row, by: &Row, m: usize) -> Row
    requires { m < 64 }
{
    let factor = F::mul(row[m], F::inv(by[m]));
    array::from_fn(|k| F::add(row[k], F::neg(F::mul(factor, by[k]))))
}

// How many rows are left when each in turn has been taken from those after it.
fn rank<F: Field>(rows: &mut [Row]) -> usize {
    let mut rank = 0;
    for m in 0..64 {
        let naming = rows.iter().skip(rank).position(|row| row[m] != Element(0));
        if let Some(after) = naming {
            rows.swap(rank, rank + after);
            let pivot = rows[rank];
            rank += 1;
            for row in rows.iter_mut().skip(rank) {
                if row[m] != Element(0) {
                    *row = without::<F>(row, &pivot, m);
                }
            }
        }
    }
    rank
}

// The rank of the rows given, and of more.
pub(crate) fn rank_with<F: Field>(
    heap: Global,
    given: &[Figured],
    more: &[Row],
) -> Result<usize, AllocError> {
    let mut rows = Vec::new(heap);
    for figured in given {
        rows.push(figured.row)?;
    }
    rows.extend_from_slice(more)?;
    Ok(rank::<F>(rows.as_mut_slice()))
}

// A row is fixed if it adds nothing to the rank, and a member is pinned if its row alone then adds nothing.
pub(crate) fn plain_verdict<F: Field>(
    heap: Global,
    given: &[Figured],
    row: &Row,
    n: usize,
) -> Result<Verdict, AllocError> {
    if *row == NOBODY {
        return Ok(Verdict::NamesNobody);
    }
    let after = rank_with::<F>(heap, given, &[*row])?;
    if after == rank_with::<F>(heap, given, &[])? {
        return Ok(Verdict::Fixed);
    }
    for i in 0..n {
        if after == rank_with::<F>(heap, given, &[*row, alone(i)])? {
            return Ok(Verdict::Pinning(Member(i)));
        }
    }
    Ok(Verdict::Free)
}
