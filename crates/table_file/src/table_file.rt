// The view of a table file: opened once the bytes pass their checks, and then a server.
ghost use Rattle.std.specs.Prelude.{◌≡◌, Some, None, OnOk, IfOk, IfErr, MatchResult};
ghost use Rattle.table_file.specs.Files.{count_of, map_of, value_place, file_value, file_table, Headed, Framed, FileCheck};

use field::{Element, Field, decode, element_width};
use member_map::{is_named, map_length, named_count, stray_bit};
use refusal::{Member, Refusal, Site};
use server::{Server, bounded_count, element_or_zero};
use std::marker::PhantomData;
use stored::{check_value, header_count};

// The values stay where they lie in the bytes, and are found through the member map.
#[derive(Drop)]
pub struct TableFile<'a, F> {
    bytes: &'a [u8],
    field: PhantomData<F>,
}

impl<'a, F: Field> TableFile<'a, F> {
    ghost use Rattle.table_file.specs.Views.{view_table};

    // The view of a table file's bytes, or the first check that fails.
    pub fn open(bytes: &'a [u8]) -> Result<TableFile<'a, F>, Refusal>
        ensures accepted { OnOk result (FileCheck F.model bytes.now None) }
        ensures table { IfOk result (λ f. view_table F.model f ≡ file_table F.model bytes.now) }
        ensures refused { IfErr result (λ e. FileCheck F.model bytes.now (Some e)) }
    {
        header_count::<F>(bytes)?;
        let file = TableFile {
            bytes,
            field: PhantomData,
        };
        file.check_frame()?;
        file.check_values()?;
        Ok(file)
    }
}

// The checks of the bytes behind the header, in their order, and where the values stand.
impl<'a, F: Field> TableFile<'a, F> {
    fn count_byte(&self) -> u8
        ensures { result ≡ count_of self.now.bytes.now }
    {
        self.bytes.get(1).copied().unwrap_or(0)
    }

    // The bytes from the map on.
    fn map(&self) -> &[u8]
        ensures { result.now ≡ map_of self.now.bytes.now }
    {
        match self.bytes {
            [_, _, map @ ..] => map,
            _ => &[],
        }
    }

    // Where the value of a member stands, or would stand.
    fn value_place(&self, m: u8) -> usize
        ensures { result ≡ value_place F.model self.now.bytes.now m }
    {
        2 + map_length(self.count_byte()) + element_width::<F>() * named_count(self.map(), m)
    }

    // The code of a member, 0 where the map does not name it.
    fn stored_code(&self, m: u8) -> Element
        ensures { result.0 ≡ file_value F.model self.now.bytes.now m }
    {
        if is_named(self.map(), Member(usize::from(m))) {
            decode::<F>(self.bytes, self.value_place(m))
        } else {
            Element(0)
        }
    }

    // The map, and the length that it calls for.
    fn check_frame(&self) -> Result<(), Refusal>
        requires { Headed F.model self.now.bytes.now }
        ensures { MatchResult result (λ _. Framed F.model self.now.bytes.now) (λ e. FileCheck F.model self.now.bytes.now (Some e)) }
    {
        let n = self.count_byte();
        if self.bytes.len() < 2 + map_length(n) {
            return Err(Refusal::WrongLength(Site::Nothing));
        }
        if let Some(b) = stray_bit(self.map(), n) {
            return Err(Refusal::StrayMapBit(Site::OfMember(b)));
        }
        if self.bytes.len() != self.value_place(n) {
            return Err(Refusal::WrongLength(Site::Nothing));
        }
        Ok(())
    }

    // Every stored value: an element, and not 0.
    fn check_values(&self) -> Result<(), Refusal>
        requires { Framed F.model self.now.bytes.now }
        ensures { MatchResult result (λ _. FileCheck F.model self.now.bytes.now None) (λ e. FileCheck F.model self.now.bytes.now (Some e)) }
    {
        for m in 0..self.count_byte() {
            let member = Member(usize::from(m));
            if is_named(self.map(), member) {
                check_value::<F>(self.stored_code(m), Site::OfMember(member))?;
            }
        }
        Ok(())
    }
}

impl<'a, F: Field> Server for TableFile<'a, F> {
    ghost use Rattle.table_file.specs.Views.{view_table};

    type Over = F;

    ghost table = { view_table F.Field.model };

    fn count(&self) -> usize {
        bounded_count(usize::from(self.count_byte()))
    }

    fn value(&self, m: Member) -> Option<Element> {
        if m.0 >= self.count() {
            return None;
        }
        Some(element_or_zero::<F>(self.stored_code(m.0 as u8)))
    }
}
