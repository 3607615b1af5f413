// What a field is, for all that is written once over every field: its elements, its operations and their laws.
#![tactic(auto)]

ghost use Rattle.std.specs.Prelude.{◌≡◌, ℕ, ◌+◌, ◌<◌, ◌≤◌, ◌++◌, length, drop, Some, MatchOption, slice_index, decimal};
ghost use Rattle.field.specs.Model.{FieldModel, FieldLaws};
ghost use Rattle.field.specs.Bytes.{width, written, code_at};

use std::fmt;

// The code of a field's element. A field's elements are the codes below its size.
#[derive(Clone, Copy, PartialEq, Eq, PartialOrd, Ord, Debug)]
pub struct Element(pub u32);

// An element is printed as its code, in decimal.
impl fmt::Display for Element {
    ghost output = { λ e. Some (decimal e.0) };

    fn fmt<W: fmt::Write>(&self, f: &mut fmt::Formatter<W>) -> fmt::Result {
        fmt::Display::fmt(&self.0, f)
    }
}

// The operations ask nothing: a code past the size gets an answer too, the model's, below the size.
pub trait Field {
    ghost model: { FieldModel };

    fn size() -> u32
        ensures { result ≡ model.size };

    // The first byte of a table file and of a log: the formats have numbers for the kinds.
    fn kind() -> u8
        ensures { result ≡ model.kind };

    fn add(a: Element, b: Element) -> Element
        ensures is { result.0 ≡ model.plus a.0 b.0 }
        ensures within { result.0 < model.size };

    fn mul(a: Element, b: Element) -> Element
        ensures is { result.0 ≡ model.times a.0 b.0 }
        ensures within { result.0 < model.size };

    // The product of the first two, and the third.
    fn mul_add(a: Element, b: Element, c: Element) -> Element
        ensures is { result.0 ≡ model.plus c.0 (model.times a.0 b.0) }
        ensures within { result.0 < model.size }
    {
        Self::add(c, Self::mul(a, b))
    }

    fn neg(a: Element) -> Element
        ensures is { result.0 ≡ model.opposite a.0 }
        ensures within { result.0 < model.size };

    // The inverse of 0 is 0.
    fn inv(a: Element) -> Element
        ensures is { result.0 ≡ model.inverse a.0 }
        ensures within { result.0 < model.size };

    ghost laws: { FieldLaws model };
}

// How many bytes an element takes in a table file or a log.
pub fn element_width<F: Field>() -> usize
    ensures { result ≡ width F.model }
{
    if F::size() <= 256 { 1 } else { 2 }
}

fn byte_at(bytes: &[u8], at: usize) -> u8
    ensures { result ≡ slice_index bytes.now at }
{
    bytes.get(at).copied().unwrap_or(0)
}

// The code that stands in the bytes from a place on, where missing bytes count as 0. It may stand for no element.
pub fn decode<F: Field>(bytes: &[u8], at: usize) -> Element
    ensures { result.0 ≡ code_at F.model bytes.now at }
{
    let first = byte_at(bytes, at);
    if F::size() <= 256 {
        return Element(u32::from(first));
    }
    let second = byte_at(bytes, at.saturating_add(1));
    Element(u32::from(u16::from_be_bytes([first, second])))
}

// Writes an element's bytes to the front of `out`, and answers how many. Where it is no element, or there is too
// little room, the answer is none and nothing is written.
pub fn encode<F: Field>(e: Element, out: &mut [u8]) -> Option<usize>
    ensures { MatchOption result ((out.new ≡ out.old) × (e.0 < F.model.size → width F.model ≤ length out.old → ⊥)) (λ k. (e.0 < F.model.size) × (k ≡ width F.model) × (k ≤ length out.old) × (out.new ≡ written F.model e.0 ++ drop (width F.model) out.old)) }
{
    if e.0 >= F::size() {
        return None;
    }
    let width = element_width::<F>();
    let (front, _) = out.split_at_mut_checked(width)?;
    front.copy_from_slice(&(e.0 as u16).to_be_bytes()[2 - width..]);
    Some(width)
}
