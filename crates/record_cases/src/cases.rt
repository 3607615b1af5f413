// Rows that are judged and admitted, and witnesses. The figures are those of wages 120, 95, 70, or of visits 12, 10, 7.
use crate::ask;
use crate::ask::Ask;
use amounts::Amounts;
use field::Element;
use refusal::Member;
use std::io;
use ticks::Ticks;

pub(crate) const ROW_2: &[Element] = &[Element(0), Element(0), Element(1)];

pub(crate) const ROW_0_1: &[Element] = &[Element(1), Element(1), Element(0)];

const ROW_1_2: &[Element] = &[Element(0), Element(1), Element(1)];

const ROW_0_2: &[Element] = &[Element(1), Element(0), Element(1)];

const ROW_0_1_2: &[Element] = &[Element(1), Element(1), Element(1)];

const TWICE_0_1: &[Element] = &[Element(2), Element(2), Element(0)];

const WAGES: [(&str, Ask); 17] = [
    ("at first", Ask::Rows),
    ("row 2", Ask::Judge(ROW_2)),
    ("row 0 1", Ask::Judge(ROW_0_1)),
    ("row 0 1 with 215", Ask::Admit(ROW_0_1, Element(215))),
    ("row 1 2", Ask::Judge(ROW_1_2)),
    ("row 1 2 with 165", Ask::Admit(ROW_1_2, Element(165))),
    ("then", Ask::Rows),
    ("row 0 2", Ask::Judge(ROW_0_2)),
    ("row 0 2 with 190", Ask::Admit(ROW_0_2, Element(190))),
    ("row 2", Ask::Judge(ROW_2)),
    ("row 0:2 1:2", Ask::Judge(TWICE_0_1)),
    ("row 0:2 1:2 with 430", Ask::Admit(TWICE_0_1, Element(430))),
    ("row 0:2 1:2 with 7", Ask::Admit(TWICE_0_1, Element(7))),
    ("then", Ask::Rows),
    ("witness of 0 at 0", Ask::Witness(Member(0), Element(0), 3)),
    ("witness of 1 at 0", Ask::Witness(Member(1), Element(0), 3)),
    (
        "witness of 2 at 70",
        Ask::Witness(Member(2), Element(70), 3),
    ),
];

const OTHER_ORDER: [(&str, Ask); 3] = [
    ("row 1 2 with 165", Ask::Admit(ROW_1_2, Element(165))),
    ("row 0 1 with 215", Ask::Admit(ROW_0_1, Element(215))),
    ("then", Ask::Rows),
];

const HALVED: [(&str, Ask); 2] = [
    (
        "row 0:2 1:4 with 620",
        Ask::Admit(&[Element(2), Element(4), Element(0)], Element(620)),
    ),
    ("then", Ask::Rows),
];

const VISITS: [(&str, Ask); 9] = [
    ("row 0 1 with 6", Ask::Admit(ROW_0_1, Element(6))),
    ("row 1 2 with 13", Ask::Admit(ROW_1_2, Element(13))),
    ("row 0 2", Ask::Judge(ROW_0_2)),
    ("row 0 2 with 11", Ask::Admit(ROW_0_2, Element(11))),
    ("then", Ask::Rows),
    ("row 0 1 2", Ask::Judge(ROW_0_1_2)),
    ("row 0 1 2 with 1", Ask::Admit(ROW_0_1_2, Element(1))),
    ("witness of 0 at 0", Ask::Witness(Member(0), Element(0), 3)),
    ("witness of 2 at 7", Ask::Witness(Member(2), Element(7), 3)),
];

const SHARED: [(&str, Ask); 2] = [
    (
        "row 0:2 1:3 with 6",
        Ask::Admit(&[Element(2), Element(3), Element(0)], Element(6)),
    ),
    ("then", Ask::Rows),
];

const ALONE: [(&str, Ask); 1] = [("row 0:5", Ask::Judge(&[Element(5)]))];

const ALL: &[Element] = &[Element(1); 64];

// All of 64 members, and all but the last.
fn full(rt: &HostRuntime) -> io::Result<()> {
    let mut but_last = [Element(1); 64];
    but_last[63] = Element(0);
    let asks = [
        ("all but the last", Ask::Judge(&but_last)),
        ("all but the last with 5", Ask::Admit(&but_last, Element(5))),
        ("all", Ask::Judge(ALL)),
        ("all with 6", Ask::Admit(ALL, Element(6))),
    ];
    ask::all::<Amounts>(rt, "amounts, 64 members", 64, &asks)?;
    ask::all::<Ticks>(rt, "ticks, 64 members", 64, &asks)
}

pub(crate) fn run(rt: &HostRuntime) -> io::Result<()> {
    ask::all::<Amounts>(rt, "wages", 3, &WAGES)?;
    ask::all::<Amounts>(rt, "wages, in the other order", 3, &OTHER_ORDER)?;
    ask::all::<Amounts>(rt, "wages, a pivot of weight 2", 3, &HALVED)?;
    ask::all::<Ticks>(rt, "visits", 3, &VISITS)?;
    ask::all::<Ticks>(rt, "visits, a pivot of weight 2", 3, &SHARED)?;
    ask::all::<Ticks>(rt, "one member", 1, &ALONE)?;
    full(rt)
}
