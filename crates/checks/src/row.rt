// A row that passed its checks is a type, so that no check is made twice.
ghost use Rattle.std.specs.Prelude.{◌≡◌, ℕ, ◌<◌, ◌≤◌, length, Some, None, MatchResult};
ghost use Rattle.field.specs.Sums.{Codes, weights_of};
ghost use Rattle.server.specs.Checks.{Count};
ghost use Rattle.checks.specs.Checks.{RowCheck};

use crate::padding::padded;
use field::{Element, Field};
use refusal::{Member, Refusal, Site};
use server::is_count;
use std::alloc::AllocError;
use std::marker::PhantomData;

// A row has as many weights as there are members, each an element, and names a member.
fn check_row<F: Field>(weights: &[Element], n: usize) -> Result<(), Refusal>
    ensures { MatchResult result (λ _. RowCheck F.model n weights.now None) (λ e. RowCheck F.model n weights.now (Some e)) }
{
    if weights.len() != n {
        return Err(Refusal::WrongRowLength);
    }
    if let Some(m) = weights.iter().position(|weight| weight.0 >= F::size()) {
        return Err(Refusal::NotAnElement(Site::OfMember(Member(m))));
    }
    if weights.iter().all(|weight| weight.0 == 0) {
        return Err(Refusal::NoMemberNamed(Site::Nothing));
    }
    Ok(())
}

// The weights of 1 to 64 members, each an element, and 0 in the places past them. Some member is named.
pub struct CheckedRow<F: Field> {
    weights: [Element; 64],
    count: usize,
    field: PhantomData<F>,
    ghost members: { Count count },
    ghost elements: { Codes F.model 64 (weights_of weights) },
    ghost none_past: { (m : ℕ) → count ≤ m → weights_of weights m ≡ 0 },
    ghost some_named: { ((m : ℕ) → m < count → weights_of weights m ≡ 0) → ⊥ },
}

impl<F: Field> Clone for CheckedRow<F> {
    ghost is_clone = { λ x y. y ≡ x };

    ghost is_infallible = { λ _. Unit {0} };

    fn clone(&self) -> Result<CheckedRow<F>, AllocError> {
        Ok(*self)
    }
}

impl<F: Field> Copy for CheckedRow<F> {}

impl<F: Field> CheckedRow<F> {
    ghost use Rattle.std.specs.Prelude.{IfOk};
    ghost use Rattle.checks.specs.Checks.{RowMade};
    ghost use Rattle.checks.specs.CheckedRows.{row_members, row_of, listed_row};

    // The row of these weights, for `n` members, where it passes its checks.
    pub fn new(weights: &[Element], n: usize) -> Result<CheckedRow<F>, Refusal>
        ensures made { MatchResult result (λ _. RowMade F.model n weights.now None) (λ e. RowMade F.model n weights.now (Some e)) }
        ensures count { IfOk result (λ r. row_members r ≡ n) }
        ensures row { IfOk result (λ r. row_of r ≡ weights_of weights.now) }
        ensures list { IfOk result (λ r. listed_row r ≡ weights.now) }
    {
        if !is_count(n) {
            return Err(Refusal::WrongCount);
        }
        check_row::<F>(weights, n)?;
        Ok(CheckedRow {
            weights: padded(weights),
            count: n,
            field: PhantomData,
        })
    }

    // How many members the row is of.
    pub fn count(&self) -> usize
        ensures { result ≡ row_members self.now }
    {
        self.count
    }

    // The weights of its members.
    pub fn weights(&self) -> &[Element]
        ensures list { result.now ≡ listed_row self.now }
        ensures length { length result.now ≡ row_members self.now }
    {
        &self.weights[..self.count]
    }

    // Its weights in 64 places, 0 past its members.
    pub fn places(&self) -> [Element; 64]
        ensures { weights_of result ≡ row_of self.now }
    {
        self.weights
    }
}
