// What a line of query text is answered.
use field::Element;
use refusal::Refusal;

#[derive(Clone, Copy)]
pub enum Answer<'a> {
    Figure(Element),
    // A try was granted, and withdrawn.
    Granted,
    // The elements of the witness table.
    Witness(&'a [Element]),
    // One more kind of line, and no error that anybody hands on.
    Refused(Refusal),
}
