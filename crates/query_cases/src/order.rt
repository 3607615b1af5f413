// Two faults in one line: the first from left to right counts, and 19 before 20 for one number.
use crate::show;
use amounts::Amounts;
use std::io;

// A number's own faults come before any of the bytes after it.
const ONE_NUMBER: [(&str, &str); 11] = [
    ("leading zero, and again", "a 0 00"),
    ("leading zero, and again", "t 1 01"),
    ("six digits, and again", "a 0 000000"),
    ("member 3, then a letter", "a 3x"),
    ("leading zero, then a letter", "a 01x"),
    ("six digits, then a letter", "a 100000x"),
    ("weight 0, then a letter", "a 0:0x"),
    ("element 65521, then a letter", "w 0 65521x"),
    ("again, then a letter", "a 0 0x"),
    ("again, then no weight", "a 1 1:"),
    ("again, with weight 0", "a 0 0:0"),
];

const TWO_PLACES: [(&str, &str); 15] = [
    ("no kind, then member 3", "b 3"),
    ("member 3, then a letter", "a 3 x"),
    ("a letter, then member 3", "a x 3"),
    ("a letter after a member, then member 3", "a 0x 3"),
    ("weight 65521, then again", "a 0:65521 0"),
    ("again, then member 3", "a 0 0 3"),
    ("member 3, then again", "a 3 0 0"),
    ("a letter, then again", "a 0 x 0"),
    ("two spaces, then member 3", "a  3"),
    ("member 3, then two spaces", "w 3  0"),
    ("member 3, and one item", "w 3"),
    ("member 3, then a letter", "w 3 x"),
    ("a letter, then element 65521", "w x 65521"),
    ("a letter after a member, then 65521", "w 0x 65521"),
    ("element 65521, and three items", "w 0 65521 2"),
];

pub(crate) fn run(rt: &HostRuntime) -> io::Result<()> {
    show::all::<Amounts>(rt, "two faults at one number", 3, &ONE_NUMBER)?;
    show::all::<Amounts>(rt, "two faults at two places", 3, &TWO_PLACES)
}
