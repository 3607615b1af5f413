// The checks that table files and logs share: of the header, and of a stored value or weight.
#![tactic(auto)]

ghost use Rattle.std.specs.Prelude.{◌≡◌, ℕ, Some, None, MatchResult};
ghost use Rattle.stored.specs.Stored.{count_of, CountCheck, ValueCheck};

use field::{Element, Field};
use refusal::{Refusal, Site};
use server::is_count;

// The count of members in the header: the field's kind byte comes first, then the count.
pub fn header_count<F: Field>(bytes: &[u8]) -> Result<u8, Refusal>
    ensures { MatchResult result (λ n. CountCheck F.model bytes.now None × (n ≡ count_of bytes.now)) (λ e. CountCheck F.model bytes.now (Some e)) }
{
    let [kind, count, ..] = bytes else {
        return Err(Refusal::WrongLength(Site::Nothing));
    };
    if *kind != F::kind() {
        return Err(Refusal::WrongKind);
    }
    if !is_count(usize::from(*count)) {
        return Err(Refusal::WrongCount);
    }
    Ok(*count)
}

// The value or weight itself, where its code may be stored: an element, and not 0.
pub fn check_value<F: Field>(e: Element, site: Site) -> Result<Element, Refusal>
    ensures { MatchResult result (λ k. ValueCheck F.model e.0 site None × (k ≡ e)) (λ r. ValueCheck F.model e.0 site (Some r)) }
{
    if e.0 >= F::size() {
        return Err(Refusal::NotAnElement(site));
    }
    if e.0 == 0 {
        return Err(Refusal::StoredZero(site));
    }
    Ok(e)
}
