// The pair: two servers of one field and count, whose elements are added member by member.
ghost use Rattle.std.specs.Prelude.{◌≡◌, length, Some, None, OnOk, IfOk, IfErr};
ghost use Rattle.server.specs.Tables.{sums};
ghost use Rattle.server.specs.Checks.{PairCheck};

use crate::Server;
use field::{Element, Field};
use refusal::{Member, Refusal};

#[derive(Drop)]
pub struct Pair<L, R> {
    left: L,
    right: R,
}

// Two servers that make no pair, handed back with the refusal.
#[derive(Drop)]
pub struct Unpaired<L, R> {
    pub refusal: Refusal,
    pub left: L,
    pub right: R,
}

impl<L: Server, R: Server<Over = L::Over>> Pair<L, R> {
    // Refused where the counts differ.
    pub fn new(left: L, right: R) -> Result<Pair<L, R>, Unpaired<L, R>>
        ensures accepted { OnOk result (PairCheck (length (L.Server.table left)) (length (R.Server.table right)) None) }
        ensures servers { IfOk result (λ p. (p.left ≡ left) × (p.right ≡ right)) }
        ensures refused { IfErr result (λ u. PairCheck (length (L.Server.table left)) (length (R.Server.table right)) (Some u.refusal)) }
        ensures kept { IfErr result (λ u. (u.left ≡ left) × (u.right ≡ right)) }
    {
        if left.count() != right.count() {
            return Err(Unpaired {
                refusal: Refusal::CountsDiffer,
                left,
                right,
            });
        }
        Ok(Pair { left, right })
    }
}

impl<L: Server, R: Server<Over = L::Over>> Server for Pair<L, R> {
    type Over = L::Over;

    ghost table = { λ p. sums L.Over.Field.model (L.Server.table p.left) (R.Server.table p.right) };

    fn count(&self) -> usize {
        self.left.count().min(self.right.count())
    }

    fn value(&self, m: Member) -> Option<Element> {
        let a = self.left.value(m)?;
        let b = self.right.value(m)?;
        Some(L::Over::add(a, b))
    }
}
