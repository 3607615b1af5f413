// What is refused, in the order of the checks.
use crate::ask;
use crate::ask::Ask;
use crate::cases::{ROW_0_1, ROW_2};
use amounts::Amounts;
use field::Element;
use refusal::Member;
use std::io;
use ticks::Ticks;

const NOBODY: &[Element] = &[Element(0), Element(0), Element(0)];

const ROWS: [(&str, Ask); 9] = [
    ("no weights", Ask::Judge(&[])),
    ("two weights", Ask::Judge(&[Element(1), Element(1)])),
    (
        "four weights",
        Ask::Admit(
            &[Element(1), Element(1), Element(0), Element(0)],
            Element(7),
        ),
    ),
    (
        "weight 65521 of member 1",
        Ask::Judge(&[Element(1), Element(65521), Element(0)]),
    ),
    (
        "strays of members 1 and 2",
        Ask::Admit(&[Element(1), Element(65522), Element(65521)], Element(7)),
    ),
    ("nobody", Ask::Judge(NOBODY)),
    ("nobody with 0", Ask::Admit(NOBODY, Element(0))),
    ("row 0 1 with 65521", Ask::Admit(ROW_0_1, Element(65521))),
    ("then", Ask::Rows),
];

// Two faults at once: the earlier check counts.
const ORDER: [(&str, Ask); 5] = [
    (
        "two weights, one a stray",
        Ask::Judge(&[Element(0), Element(65521)]),
    ),
    (
        "a stray, and nobody else",
        Ask::Judge(&[Element(0), Element(0), Element(65521)]),
    ),
    ("nobody with 65521", Ask::Admit(NOBODY, Element(65521))),
    ("row 2 with 65521", Ask::Admit(ROW_2, Element(65521))),
    ("row 2 with 65520", Ask::Admit(ROW_2, Element(65520))),
];

const WITNESSES: [(&str, Ask); 7] = [
    ("member 3", Ask::Witness(Member(3), Element(0), 3)),
    ("element 65521", Ask::Witness(Member(2), Element(65521), 3)),
    ("buffer of 2", Ask::Witness(Member(2), Element(65520), 2)),
    ("buffer of 4", Ask::Witness(Member(2), Element(65520), 4)),
    (
        "member 3, element 65521, buffer of 0",
        Ask::Witness(Member(3), Element(65521), 0),
    ),
    (
        "element 65521, buffer of 2",
        Ask::Witness(Member(2), Element(65521), 2),
    ),
    ("element 65520", Ask::Witness(Member(2), Element(65520), 3)),
];

const PAST_TICKS: [(&str, Ask); 3] = [
    (
        "weight 256 of member 2",
        Ask::Judge(&[Element(1), Element(255), Element(256)]),
    ),
    ("row 0 1 with 256", Ask::Admit(ROW_0_1, Element(256))),
    ("element 256", Ask::Witness(Member(0), Element(256), 3)),
];

pub(crate) fn run(rt: &HostRuntime) -> io::Result<()> {
    ask::all::<Amounts>(rt, "rows", 3, &ROWS)?;
    ask::all::<Amounts>(rt, "two faults", 3, &ORDER)?;
    ask::all::<Amounts>(rt, "witnesses", 3, &WITNESSES)?;
    ask::all::<Ticks>(rt, "past the ticks", 3, &PAST_TICKS)
}
