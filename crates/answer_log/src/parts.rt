// A row in bytes, part by part: the mark, the member map, the weights, the figure.
ghost use Rattle.std.specs.Prelude.{◌≡◌, ℕ, ◌<◌, ◌≤◌, ◌++◌, length, drop};
ghost use Rattle.field.specs.Sums.{Codes, weights_of};
ghost use Rattle.member_map.specs.Maps.{map_length_lem};
ghost use Rattle.buffer.specs.Buffers.{onto};
ghost use Rattle.answer_log.specs.Rows.{names, mark as mark-of-row, plain, map_byte_lem, map_onto};

use field::{Element, Field, element_width, encode};
use member_map::map_length;
use std::marker::PhantomData;

// A row that is written: the weights of its members and its figure, each an element.
#[derive(Drop)]
pub(crate) struct Row<'a, F: Field> {
    pub weights: &'a [Element],
    pub figure: Element,
    pub field: PhantomData<F>,
    ghost few: { length weights.now ≤ 64 },
    ghost elements: { Codes F.model (length weights.now) (weights_of weights.now) },
    ghost below: { figure.0 < F.model.size },
}

// Whether every weight is 0 or 1, so that none is stored.
pub(crate) fn is_plain(weights: &[Element]) -> bool
    ensures { result ≡ plain (weights_of weights.now) (length weights.now) }
{
    weights.iter().all(|weight| weight.0 <= 1)
}

fn is_named(weights: &[Element], m: usize) -> bool
    ensures { result ≡ names (weights_of weights.now) m }
{
    weights.get(m).is_some_and(|weight| weight.0 != 0)
}

// Byte `k` of the member map of the named members.
fn map_byte(weights: &[Element], k: usize) -> u8
    requires { k < 8 }
    ensures { result ≡ map_byte_lem (weights_of weights.now) k }
{
    let mut byte: u8 = 0;
    for b in 0..8 {
        if is_named(weights, 8 * k + b) {
            byte += 1 << b;
        }
    }
    byte
}

impl<F: Field> Row<'_, F> {
    ghost use Rattle.answer_log.specs.Parts.{weights_in, members_in, named_in, stored_in, bytes_in};

    fn mark(&self) -> u8
        ensures { result ≡ mark-of-row (weights_in self.now) (members_in self.now) }
    {
        if is_plain(self.weights) { 0 } else { 1 }
    }

    // How many bytes the stored weights take.
    fn stored_length(&self) -> usize
        ensures is { result ≡ length (stored_in F.model self.now) }
        ensures few { result ≤ 128 }
    {
        if is_plain(self.weights) {
            return 0;
        }
        let named = self.weights.iter().filter(|weight| weight.0 != 0);
        named.count() * element_width::<F>()
    }

    // How many bytes the row has.
    pub(crate) fn length(&self) -> usize
        ensures { result ≡ length (bytes_in F.model self.now) }
    {
        let map = map_length(self.weights.len() as u8);
        1 + map + self.stored_length() + element_width::<F>()
    }

    // Writes the member map to the front of `out`.
    fn write_map(&self, out: &mut [u8])
        requires { map_length_lem (members_in self.now) ≤ length out.old }
        ensures { out.new ≡ map_onto (weights_in self.now) (members_in self.now) out.old }
    {
        let map = &mut out[..map_length(self.weights.len() as u8)];
        for (k, byte) in map.iter_mut().enumerate() {
            *byte = map_byte(self.weights, k);
        }
    }

    // Writes the weights of the named members to the front of `out`, and answers how many bytes they take.
    fn write_weights(&self, out: &mut [u8]) -> usize
        requires { length (named_in F.model self.now) ≤ length out.old }
        ensures length { result ≡ length (named_in F.model self.now) }
        ensures buffer { out.new ≡ named_in F.model self.now ++ drop result out.old }
    {
        // Tried, and not proved: the named weights zipped with `out.chunks_exact_mut(width)`. The check could not state that
        // loop's invariant, and after such parts a proof knows the buffer's length alone. So the rest is lent for each weight.
        let mut at = 0;
        for weight in self.weights {
            if weight.0 != 0 {
                at += encode::<F>(*weight, &mut out[at..]).unwrap();
            }
        }
        at
    }

    // Writes the stored weights to the front of `out`, and answers how many bytes they take.
    fn write_stored(&self, out: &mut [u8]) -> usize
        requires { length (stored_in F.model self.now) ≤ length out.old }
        ensures length { result ≡ length (stored_in F.model self.now) }
        ensures buffer { out.new ≡ stored_in F.model self.now ++ drop result out.old }
    {
        if is_plain(self.weights) {
            return 0;
        }
        self.write_weights(out)
    }

    // Writes the row to the front of `out`, which has room for it.
    pub(crate) fn put(&self, out: &mut [u8])
        requires { length (bytes_in F.model self.now) ≤ length out.old }
        ensures { out.new ≡ onto (bytes_in F.model self.now) out.old }
    {
        out[0] = self.mark();
        self.write_map(&mut out[1..]);
        let at = 1 + map_length(self.weights.len() as u8);
        let stored = self.write_stored(&mut out[at..]);
        encode::<F>(self.figure, &mut out[at + stored..]).unwrap();
    }
}
