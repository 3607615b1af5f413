// One fault in a line, at each place where it can stand.
use crate::show;
use amounts::Amounts;
use std::io;
use ticks::Ticks;

// The twelve that docs/RULES.md works by hand.
const WORKED: [(&str, &str); 12] = [
    ("empty", ""),
    ("no such kind", "b 0"),
    ("nothing after the kind", "a"),
    ("two spaces", "a  0"),
    ("no weight after the colon", "a 0:"),
    ("three items of a witness", "w 0 1 2"),
    ("second member 3", "a 0 3"),
    ("leading zero", "a 01"),
    ("weight 0", "a 0:0"),
    ("weight 65521", "a 0:65521"),
    ("member again, then no digit", "a 0 0:x"),
    ("element 65521", "w 0 65521"),
];

const KINDS: [(&str, &str); 9] = [
    ("a space", " "),
    ("a space before the kind", " a 0"),
    ("a capital", "A 0"),
    ("a digit", "0"),
    ("a stop's mark", "! 1 2"),
    ("a letter that is not ASCII", "ä 0"),
    ("a carriage return", "\r"),
    ("two letters", "aa 0"),
    ("a remark's mark second", "a# 0"),
];

const SPACES: [(&str, &str); 24] = [
    ("nothing after the kind", "t"),
    ("nothing after the kind", "w"),
    ("no space", "a0"),
    ("no space", "t0"),
    ("no space", "w0 1"),
    ("a tab", "a\t0"),
    ("a colon", "a:0"),
    ("no number", "a "),
    ("no number", "t "),
    ("no number", "w "),
    ("two spaces", "t  0"),
    ("two spaces", "w  0 1"),
    ("a space at the end", "a 0 "),
    ("a space at the end", "t 0:5 "),
    ("two spaces between items", "a 0  1"),
    ("two spaces after a weight", "a 0:5  1"),
    ("two spaces between items", "w 0  1"),
    ("a tab between items", "a 0\t1"),
    ("a comma between items", "a 0,1"),
    ("a comma after a weight", "a 0:5,1"),
    ("a comma between items", "w 0,1"),
    ("one item of a witness", "w 0"),
    ("a space after it", "w 0 "),
    ("a space after two items", "w 0 1 "),
];

const BYTES: [(&str, &str); 26] = [
    ("a letter for a member", "a x"),
    ("a letter for a member", "t x"),
    ("a letter for a member", "w x 0"),
    ("a minus", "a -1"),
    ("a plus", "a +1"),
    ("a remark's mark", "a #"),
    ("a letter that is not ASCII", "a ä"),
    ("a colon for a member", "a :1"),
    ("a letter after a member", "a 0x"),
    ("a letter after a member", "w 0x 1"),
    ("a point", "a 1.5"),
    ("a carriage return", "a 1\r"),
    ("a letter for the second member", "a 0 x"),
    ("a remark after an item", "a 0 # all"),
    ("a space for a weight", "a 0: 1"),
    ("a second colon", "a 0::1"),
    ("a letter for a weight", "a 0:x"),
    ("a minus for a weight", "t 0:-1"),
    ("a letter after a weight", "a 0:5x"),
    ("a colon after a weight", "a 0:1:1"),
    ("no weight of the second member", "a 0 1:"),
    ("a weight in a witness", "w 0:1 2"),
    ("a weight at its end", "w 0 1:2"),
    ("a letter for an element", "w 0 x"),
    ("a minus for an element", "w 0 -1"),
    ("a letter after an element", "w 0 1x"),
];

const NUMBERS: [(&str, &str); 27] = [
    ("zero written twice", "a 00"),
    ("leading zero", "t 01"),
    ("leading zero", "w 01 0"),
    ("six zeros", "a 000000"),
    ("leading zero, second member", "a 1 02"),
    ("leading zero, weight", "a 0:01"),
    ("weight 00", "t 0:00"),
    ("leading zero, element", "w 0 01"),
    ("element 00", "w 0 00"),
    ("six digits", "a 100000"),
    ("six digits", "t 123456"),
    ("six digits", "w 100000 0"),
    ("six digits, second member", "a 1 100000"),
    ("six digits, weight", "a 0:100000"),
    ("twenty digits, weight", "a 0:99999999999999999999"),
    ("six digits, element", "w 0 100000"),
    ("member 3", "a 3"),
    ("member 3", "t 3"),
    ("member 3", "w 3 0"),
    ("member 65536", "a 65536"),
    ("member 99999", "a 99999"),
    ("second member 3", "t 0:7 3"),
    ("weight 0, second member", "a 0 1:0"),
    ("weight 65521", "t 2:65521"),
    ("weight 65536", "a 0:65536"),
    ("weight 99999", "a 0:99999"),
    ("element 99999", "w 0 99999"),
];

const REPEATED: [(&str, &str); 6] = [
    ("a member again", "a 0 0"),
    ("a member again", "t 1 1"),
    ("again after a weight", "a 0:2 0"),
    ("again with a weight", "a 0 0:2"),
    ("again after another", "a 0 1 0"),
    ("again after the greatest weight", "a 2:65520 1 2:3"),
];

const PAST_TICKS: [(&str, &str); 5] = [
    ("weight 256", "a 0:256"),
    ("weight 0", "t 0:0"),
    ("weight 65520", "a 0:65520"),
    ("element 256", "w 0 256"),
    ("member 3", "w 3 0"),
];

const PAST_64: [(&str, &str); 5] = [
    ("member 64", "a 64"),
    ("member 64", "t 0 64:5"),
    ("member 64", "w 64 0"),
    ("member 100", "a 100"),
    ("member 63 again", "a 63 6 3 63"),
];

const PAST_ONE: [(&str, &str); 2] = [("member 1", "a 0 1"), ("member 1", "w 1 0")];

pub(crate) fn run(rt: &HostRuntime) -> io::Result<()> {
    show::all::<Amounts>(rt, "amounts, 3 members: worked", 3, &WORKED)?;
    show::all::<Amounts>(rt, "no kind, or no more than a kind", 3, &KINDS)?;
    show::all::<Amounts>(rt, "spaces", 3, &SPACES)?;
    show::all::<Amounts>(rt, "bytes in and after numbers", 3, &BYTES)?;
    show::all::<Amounts>(rt, "numbers", 3, &NUMBERS)?;
    show::all::<Amounts>(rt, "repeated members", 3, &REPEATED)?;
    show::all::<Ticks>(rt, "ticks, 3 members", 3, &PAST_TICKS)?;
    show::all::<Amounts>(rt, "amounts, 64 members", 64, &PAST_64)?;
    show::all::<Amounts>(rt, "amounts, one member", 1, &PAST_ONE)
}
