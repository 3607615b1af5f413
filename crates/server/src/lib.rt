// Servers: what the survey asks for its members' elements. Two makes of server, and the sum of a row over any of them.
#![tactic(auto)]

ghost use Rattle.std.specs.Prelude.{◌≡◌, ℕ, ◌<◌, ◌≤◌, min, max, List, length, Decides, MatchOption, slice_index};
ghost use Rattle.field.specs.Sums.{sum, weights_of};
ghost use Rattle.server.specs.Tables.{Table, value_at, bounded, element_or_zero_lem};
ghost use Rattle.server.specs.Checks.{Count};

use field::{Element, Field};
use refusal::Member;

mod array;
mod lent;
mod pair;

pub use array::Array;
pub use pair::{Pair, Unpaired};

// A server means its table, the list of its members' elements, which no call alters.
pub trait Server {
    type Over: Field;

    ghost table: { Self → List ℕ };

    fn count(&self) -> usize
        ensures is { result ≡ length (table self.now) }
        ensures lawful { Table Self.Over.Field.model (table self.now) };

    // The element of a member, absent from the count on.
    fn value(&self, m: Member) -> Option<Element>
        ensures { MatchOption result (length (table self.now) ≤ m.0) (λ e. (m.0 < length (table self.now)) × (e.0 ≡ slice_index (table self.now) m.0)) };
}

// The weighted sum of a row over the server's table, asking it for the named members only.
pub fn row_sum<S: Server>(server: &S, row: &[Element]) -> Element
    ensures is { result.0 ≡ sum S.Over.Field.model (length (S.table server.now)) (weights_of row.now) (value_at (S.table server.now)) }
    ensures within { result.0 < S.Over.Field.model.size }
{
    let members = server.count();
    let mut total = Element(0);
    // The form that the project fixes for this sum: a `for`, with the count of the members beside it.
    let mut member = 0;
    for weight in row {
        if member == members {
            break;
        }
        if weight.0 != 0 {
            if let Some(value) = server.value(Member(member)) {
                total = S::Over::add(total, S::Over::mul(*weight, value));
            }
        }
        member += 1;
    }
    total
}

// Whether a server may have so many members: 1 to 64.
pub fn is_count(k: usize) -> bool
    ensures { Decides result (Count k) }
{
    (1..=64).contains(&k)
}

// A count that every server may answer, 1 to 64: the given one wherever it is such.
pub fn bounded_count(k: usize) -> usize
    ensures { result ≡ bounded k }
{
    k.clamp(1, 64)
}

// An element that every server may answer: the given one wherever it is an element.
pub fn element_or_zero<F: Field>(e: Element) -> Element
    ensures { result.0 ≡ element_or_zero_lem F.model e.0 }
{
    if e.0 < F::size() { e } else { Element(0) }
}
