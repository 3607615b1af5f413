// A line of query text, read as a request.
ghost use Rattle.std.specs.Prelude.{◌≡◌};
ghost use Rattle.query.specs.Lines.{read_witness_lem, limits, reading};
ghost use Rattle.query.specs.Laws.{Exact, Parts, Within};
ghost use Rattle.query.specs.Firsts.{Firsts};

use crate::faults::LineFault;
use crate::items::{Limits, Weights};
use crate::reader::Reader;
use field::{Element, Field};
use refusal::{BytePlace, Member};

// The most bytes of a line, but for a remark.
pub(crate) const LONGEST: usize = 640;

// What a line wants.
#[derive(Clone, Copy)]
pub enum Request {
    // Submit the row, and answer it.
    Ask(Weights),
    // Submit the row, and withdraw it.
    Try(Weights),
    Witness(Member, Element),
    Remark,
}

impl Reader<'_> {
    // Reads the two items of a witness line, a member and an element.
    fn read_witness(&self, start: BytePlace) -> Result<Request, LineFault>
        ensures { result ≡ read_witness_lem self.now.limits self.now.line.now start.0 }
    {
        let member = self.read_spaced(start, self.limits.members)?;
        let element = self.read_spaced(member.after, self.limits.size)?;
        if element.after.0 < self.line.len() {
            return Err(LineFault::NotEnded(element.after));
        }
        Ok(Request::Witness(Member(member.value as usize), Element(element.value)))
    }

    // Reads the line.
    fn read(&self) -> Result<Request, LineFault>
        ensures { result ≡ reading self.now.limits self.now.line.now }
    {
        match self.char_at(BytePlace(0)).ok_or(LineFault::NoKind)? {
            '#' => Ok(Request::Remark),
            _ if self.line.len() > LONGEST => Err(LineFault::TooLong),
            'a' => Ok(Request::Ask(self.read_items(BytePlace(1))?)),
            't' => Ok(Request::Try(self.read_items(BytePlace(1))?)),
            'w' => self.read_witness(BytePlace(1)),
            _ => Err(LineFault::NoKind),
        }
    }
}

// Reads a line, without its newline, for a survey of `n` members: what it wants, or its first fault.
pub fn read_line<F: Field>(line: &[u8], n: usize) -> Result<Request, LineFault>
    ensures is { result ≡ reading (limits F.model n) line.now }
    ensures exact { Exact (limits F.model n) line.now result }
    ensures parts { Parts line.now result }
    ensures firsts { Firsts (limits F.model n) line.now result }
    ensures within { Within line.now result }
{
    let limits = Limits {
        members: n.min(64) as u32,
        size: F::size(),
    };
    Reader { line, limits }.read()
}
