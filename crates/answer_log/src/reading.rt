// Reading a log: the checks of its header, and of a row at a place.
ghost use Rattle.std.specs.Prelude.{◌≡◌, ℕ, ◌<◌, ◌≤◌, true, length, drop, Some, None, OnOk, IfOk, IfErr, MatchResult};
ghost use Rattle.field.specs.Sums.{weights_of};
ghost use Rattle.server.specs.Checks.{Count};
ghost use Rattle.checks.specs.CheckedRows.{row_members, row_of};
ghost use Rattle.member_map.specs.Maps.{named, named_below};
ghost use Rattle.answer_log.specs.Entries.{mark_of, map_of, figure_place, row_weight, Named, Framed, Faulty, Weighed, EntryCheck, Reads, RowAt, HeaderCheck};

use crate::parts::is_plain;
use checks::CheckedRow;
use field::{Element, Field, decode, element_width};
use member_map::{is_named, map_length, named_count, stray_bit};
use refusal::{LogRow, Member, Refusal, Site};
use server::is_count;
use std::alloc::AllocError;
use stored::{check_value, header_count};

// A row as it was read, which passed its checks, its figure, and where the next row begins.
pub struct LogEntry<F: Field> {
    pub row: CheckedRow<F>,
    pub figure: Element,
    pub next: usize,
}

impl<F: Field> Clone for LogEntry<F> {
    ghost is_clone = { λ x y. y ≡ x };

    ghost is_infallible = { λ _. Unit {0} };

    fn clone(&self) -> Result<LogEntry<F>, AllocError> {
        Ok(*self)
    }
}

impl<F: Field> Copy for LogEntry<F> {}

// Checks the header of a log for a server of `n` members.
pub fn read_header<F: Field>(bytes: &[u8], n: usize) -> Result<(), Refusal>
    ensures { MatchResult result (λ _. HeaderCheck F.model n bytes.now None) (λ e. HeaderCheck F.model n bytes.now (Some e)) }
{
    let count = header_count::<F>(bytes)?;
    if usize::from(count) != n {
        return Err(Refusal::CountsDiffer);
    }
    Ok(())
}

// The bytes of a log from a row on, for a server of `count` members, and the row's number.
#[derive(Clone, Copy)]
struct RowBytes<'a> {
    bytes: &'a [u8],
    count: u8,
    row: LogRow,
    ghost counted: { Count count },
}

impl RowBytes<'_> {
    fn mark(&self) -> u8
        ensures { result ≡ mark_of self.now.bytes.now }
    {
        self.bytes.first().copied().unwrap_or(0)
    }

    // How many members the row names.
    fn count_named<F: Field>(&self) -> Result<usize, Refusal>
        ensures named { OnOk result (Named self.now.count self.now.bytes.now) }
        ensures count { IfOk result (λ k. k ≡ named_below (map_of self.now.bytes.now) self.now.count) }
        ensures refused { IfErr result (λ e. EntryCheck F.model self.now.count self.now.row self.now.bytes.now (Some e)) }
    {
        if self.mark() > 1 {
            return Err(Refusal::UnknownMark(self.row));
        }
        if self.bytes.len() < 1 + map_length(self.count) {
            return Err(Refusal::WrongLength(Site::OfRow(self.row)));
        }
        let map = &self.bytes[1..];
        if stray_bit(map, self.count).is_some() {
            return Err(Refusal::StrayMapBit(Site::OfRow(self.row)));
        }
        let named = named_count(map, self.count);
        if named == 0 {
            return Err(Refusal::NoMemberNamed(Site::OfRow(self.row)));
        }
        Ok(named)
    }

    // Where the figure of the row stands, which is its last part.
    fn find_figure<F: Field>(&self) -> Result<usize, Refusal>
        ensures framed { OnOk result (Framed F.model self.now.count self.now.bytes.now) }
        ensures place { IfOk result (λ p. p ≡ figure_place F.model self.now.count self.now.bytes.now) }
        ensures refused { IfErr result (λ e. EntryCheck F.model self.now.count self.now.row self.now.bytes.now (Some e)) }
    {
        let named = self.count_named::<F>()?;
        let mut place = 1 + map_length(self.count);
        if self.mark() == 1 {
            place += element_width::<F>() * named;
        }
        if self.bytes.len() < place + element_width::<F>() {
            return Err(Refusal::WrongLength(Site::OfRow(self.row)));
        }
        Ok(place)
    }

    // The weight of a named member. Not one with a table file's value: they begin at different places, and an unnamed member
    // there, like a plain row here, has a value that is not stored.
    fn named_weight<F: Field>(&self, m: u8) -> Element
        requires some { 1 ≤ length self.now.bytes.now }
        requires bit { named (map_of self.now.bytes.now) m ≡ true }
        ensures { result.0 ≡ row_weight F.model self.now.count self.now.bytes.now m }
    {
        if self.mark() != 1 {
            return Element(1);
        }
        let named = named_count(&self.bytes[1..], m);
        let at = 1 + map_length(self.count) + element_width::<F>() * named;
        decode::<F>(self.bytes, at)
    }

    // The weights of the row, each that is stored an element other than 0.
    fn read_weights<F: Field>(&self) -> Result<[Element; 64], Refusal>
        requires { Framed F.model self.now.count self.now.bytes.now }
        ensures long { IfOk result (λ ws. length ws ≡ 64) }
        ensures no_fault { OnOk result ((m : ℕ) → Faulty F.model self.now.count self.now.bytes.now m → ⊥) }
        ensures weights { IfOk result (λ ws. (m : ℕ) → m < self.now.count → weights_of ws m ≡ row_weight F.model self.now.count self.now.bytes.now m) }
        ensures none_past { IfOk result (λ ws. (m : ℕ) → self.now.count ≤ m → weights_of ws m ≡ 0) }
        ensures refused { IfErr result (λ e. EntryCheck F.model self.now.count self.now.row self.now.bytes.now (Some e)) }
    {
        let mut weights = [Element(0); 64];
        let map = &self.bytes[1..];
        for m in 0..self.count {
            let member = Member(usize::from(m));
            if is_named(map, member) {
                let weight = self.named_weight::<F>(m);
                weights[member.0] = check_value::<F>(weight, Site::OfRow(self.row))?;
            }
        }
        Ok(weights)
    }

    // The row itself, whose weights are stored only where one is not 1.
    fn weigh<F: Field>(&self) -> Result<CheckedRow<F>, Refusal>
        requires { Framed F.model self.now.count self.now.bytes.now }
        ensures weighed { OnOk result (Weighed F.model self.now.count self.now.bytes.now) }
        ensures row { IfOk result (λ w. (m : ℕ) → m < self.now.count → row_of w m ≡ row_weight F.model self.now.count self.now.bytes.now m) }
        ensures count { IfOk result (λ w. row_members w ≡ self.now.count) }
        ensures refused { IfErr result (λ e. EntryCheck F.model self.now.count self.now.row self.now.bytes.now (Some e)) }
    {
        let weights = self.read_weights::<F>()?;
        if self.mark() == 1 && is_plain(&weights) {
            return Err(Refusal::NeedlessWeights(self.row));
        }
        let count = usize::from(self.count);
        Ok(CheckedRow::new(&weights[..count], count).unwrap())
    }

    // The row that the bytes begin with, where `next` is how many bytes it has.
    fn read<F: Field>(&self) -> Result<LogEntry<F>, Refusal>
        ensures row { IfOk result (λ e. Reads F.model self.now.count self.now.row self.now.bytes.now (row_of e.row) e.figure.0 e.next) }
        ensures count { IfOk result (λ e. row_members e.row ≡ self.now.count) }
        ensures refused { IfErr result (λ e. EntryCheck F.model self.now.count self.now.row self.now.bytes.now (Some e)) }
    {
        let place = self.find_figure::<F>()?;
        let row = self.weigh::<F>()?;
        let figure = decode::<F>(self.bytes, place);
        if figure.0 >= F::size() {
            return Err(Refusal::NotAnElement(Site::OfRow(self.row)));
        }
        let next = place + element_width::<F>();
        Ok(LogEntry { row, figure, next })
    }
}

// The row at a place of a log's bytes. Written again it is the same bytes.
pub fn read_row<F: Field>(
    bytes: &[u8],
    at: usize,
    n: usize,
    row: LogRow,
) -> Result<LogEntry<F>, Refusal>
    ensures row { IfOk result (λ e. RowAt F.model n row bytes.now at (row_of e.row) e.figure.0 e.next) }
    ensures count { IfOk result (λ e. row_members e.row ≡ n) }
    ensures refused { IfErr result (λ e. EntryCheck F.model n row (drop at bytes.now) (Some e)) }
{
    if !is_count(n) {
        return Err(Refusal::WrongCount);
    }
    let rest = RowBytes {
        bytes: &bytes[at.min(bytes.len())..],
        count: n as u8,
        row,
    };
    let mut entry = rest.read::<F>()?;
    entry.next += at;
    Ok(entry)
}
