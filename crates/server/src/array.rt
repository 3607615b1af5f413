// The array: a server over a slice of elements.
ghost use Rattle.std.specs.Prelude.{◌≡◌, ℕ, ◌<◌, ◌≤◌, length, Some, None, OnOk, IfOk, IfErr};
ghost use Rattle.server.specs.Tables.{listed, value_at, codes};
ghost use Rattle.server.specs.Checks.{ArrayCheck};

use crate::{Server, bounded_count, element_or_zero, is_count};
use field::{Element, Field};
use refusal::{Member, Refusal, Site};
use std::marker::PhantomData;

#[derive(Drop)]
pub struct Array<'a, F> {
    elements: &'a [Element],
    field: PhantomData<F>,
}

impl<'a, F: Field> Array<'a, F> {
    ghost use Rattle.server.specs.Arrays.{array_table};

    // Refused where the count is not 1 to 64, or where a code is no element.
    pub fn new(elements: &'a [Element]) -> Result<Array<'a, F>, Refusal>
        ensures accepted { OnOk result (ArrayCheck F.model (codes elements.now) None) }
        ensures table { IfOk result (λ a. array_table F.model a ≡ codes elements.now) }
        ensures refused { IfErr result (λ e. ArrayCheck F.model (codes elements.now) (Some e)) }
    {
        if !is_count(elements.len()) {
            return Err(Refusal::WrongCount);
        }
        match elements.iter().position(|e| e.0 >= F::size()) {
            Some(m) => Err(Refusal::NotAnElement(Site::OfMember(Member(m)))),
            None => Ok(Array {
                elements,
                field: PhantomData,
            }),
        }
    }
}

impl<'a, F: Field> Server for Array<'a, F> {
    ghost use Rattle.server.specs.Arrays.{array_table};

    type Over = F;

    ghost table = { array_table F.Field.model };

    fn count(&self) -> usize {
        bounded_count(self.elements.len())
    }

    fn value(&self, m: Member) -> Option<Element> {
        if m.0 >= self.count() {
            return None;
        }
        let e = self.elements.get(m.0).copied().unwrap_or(Element(0));
        Some(element_or_zero::<F>(e))
    }
}
