// The items of a line, each after one space.
ghost use Rattle.std.specs.Prelude.{◌≡◌, ◌<◌};
ghost use Rattle.query.specs.Items.{names, read_spaced_lem, read_item_lem, read_items_lem, no_weights};

use crate::faults::ItemFault;
use crate::numbers::Numeral;
use crate::reader::Reader;
use field::Element;
use refusal::{BytePlace, Member};

// A weight for each of 64 members, 0 at those not named. An array and no Vec: the library crates have fixed memory.
#[derive(Clone, Copy)]
pub struct Weights(pub [Element; 64]);

// What numbers are in range: members are below `members`, weights and elements below `size`.
#[derive(Clone, Copy)]
pub(crate) struct Limits {
    pub members: u32,
    pub size: u32,
}

#[derive(Clone, Copy)]
pub(crate) struct Item {
    pub member: Member,
    pub weight: Element,
    pub after: BytePlace,
}

impl Weights {
    // Whether a member has a weight already.
    fn names(&self, member: Member) -> bool
        requires { member.0 < 64 }
        ensures { result ≡ names self.now.0 member.0 }
    {
        self.0[member.0].0 != 0
    }
}

impl Reader<'_> {
    // Reads a space and the number after it, which is below `limit`.
    pub(crate) fn read_spaced(&self, at: BytePlace, limit: u32) -> Result<Numeral, ItemFault>
        ensures { result ≡ read_spaced_lem limit self.now.line.now at.0 }
    {
        if !self.stands(at, ' ') {
            return Err(ItemFault::NoSpace(at));
        }
        Ok(self.read_number(BytePlace(at.0 + 1), 0, limit)?)
    }

    // Reads an item: a member that is not named yet, with or without a weight.
    fn read_item(&self, at: BytePlace, named: &Weights) -> Result<Item, ItemFault>
        ensures { result ≡ read_item_lem self.now.limits named.now.0 self.now.line.now at.0 }
    {
        let found = self.read_spaced(at, self.limits.members)?;
        let member = Member(found.value as usize);
        if named.names(member) {
            return Err(ItemFault::Repeated(found.start));
        }
        if !self.stands(found.after, ':') {
            return Ok(Item {
                member,
                weight: Element(1),
                after: found.after,
            });
        }
        let weight = self.read_number(BytePlace(found.after.0 + 1), 1, self.limits.size)?;
        Ok(Item {
            member,
            weight: Element(weight.value),
            after: weight.after,
        })
    }

    // Reads the items from a place on to the line's end: one at least, each of another member.
    pub(crate) fn read_items(&self, start: BytePlace) -> Result<Weights, ItemFault>
        ensures { result ≡ read_items_lem self.now.limits no_weights self.now.line.now start.0 }
    {
        let mut weights = Weights([Element(0); 64]);
        let mut at = start;
        // No `for`: the next place is known only once an item was read.
        loop {
            let item = self.read_item(at, &weights)?;
            weights.0[item.member.0] = item.weight;
            at = item.after;
            if at.0 == self.line.len() {
                return Ok(weights);
            }
        }
    }
}
