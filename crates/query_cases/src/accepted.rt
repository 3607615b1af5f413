// Lines without a fault, and what they want.
use crate::show;
use amounts::Amounts;
use std::io;
use ticks::Ticks;

const THREE: [(&str, &str); 14] = [
    ("one member", "a 0"),
    ("the last member", "t 2"),
    ("all members", "a 0 1 2"),
    ("members in another order", "t 2 0 1"),
    ("weight 1 written out", "a 1:1"),
    ("weights and none", "a 2:7 0 1:10"),
    ("the greatest weight", "t 0:65520 1:65519"),
    ("a witness", "w 1 7"),
    ("the least element", "w 0 0"),
    ("the greatest element", "w 2 65520"),
    ("a remark of nothing", "#"),
    ("a remark", "# hours"),
    ("a remark that looks like a line", "#a 0"),
    ("a remark of other bytes", "#\t\r: ä"),
];

const TICKS: [(&str, &str); 4] = [
    ("the greatest weight", "a 0:255 2"),
    ("two weights", "t 1:2 0:128"),
    ("the greatest element", "w 2 255"),
    ("the least element", "w 2 0"),
];

const MANY: [(&str, &str); 4] = [
    ("the last member", "a 63"),
    ("three members of like digits", "t 6 63 3"),
    ("first and last", "a 63:65520 0:2"),
    ("a witness", "w 63 65520"),
];

const ONE: [(&str, &str); 2] = [("one member", "a 0:3"), ("a witness", "w 0 3")];

pub(crate) fn run(rt: &HostRuntime) -> io::Result<()> {
    show::all::<Amounts>(rt, "accepted, amounts, 3 members", 3, &THREE)?;
    show::all::<Ticks>(rt, "accepted, ticks, 3 members", 3, &TICKS)?;
    show::all::<Amounts>(rt, "accepted, amounts, 64 members", 64, &MANY)?;
    show::all::<Ticks>(rt, "accepted, ticks, one member", 1, &ONE)
}
