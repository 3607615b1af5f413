// What the record answers when it is asked about a row.
use crate::rows::FreshRow;
use field::Element;
use refusal::Member;

// How a row stands to the record.
#[derive(Clone, Copy, PartialEq, Eq, Debug)]
pub enum Judgement {
    // The record fixes its sum, at this figure.
    Fixed(Element),
    // With the record's rows it would pin this member, and none lower.
    Pinning(Member),
    Free,
}

// What became of a row that was admitted.
#[derive(Clone, Copy, PartialEq, Eq, Debug)]
pub enum Admission {
    Joined,
    // The record fixes the row already, and is as it was.
    Kept,
}

// What is left over of a row: nothing but a figure, a row that would pin a member, or one that may join.
#[derive(Clone, Copy)]
pub enum Standing {
    Fixed(Element),
    Pinning(Member),
    Fresh(FreshRow),
}
