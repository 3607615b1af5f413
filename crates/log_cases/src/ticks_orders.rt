// Faulty rows over ticks, where every byte is an element.
use crate::orders;
use crate::orders::{Faults, Faulty};
use std::io;
use ticks::Ticks;

const WHOLE: [Faulty; 7] = [
    ("8", &[2, 6, 0, 13]),
    ("4", &[0, 6, 128, 13]),
    ("9", &[0, 0, 0, 0]),
    ("6", &[1, 7, 0, 2, 0, 3, 13]),
    ("10", &[1, 6, 0, 1, 1, 13]),
    ("11", &[0, 4, 0, 7]),
    ("12", &[0, 3, 0, 7]),
];

const CUT: [Faulty; 2] = [("1 in the map", &[0, 6]), ("1 in the rest", &[0, 6, 0])];

const BOTH: [Faulty; 25] = [
    ("8, 1 in the map", &[2, 6]),
    ("8, 4", &[2, 6, 128, 13]),
    ("8, 9", &[2, 0, 0, 0]),
    ("8, 1 in the rest", &[2, 6, 0]),
    ("8, 6", &[3, 7, 0, 2, 0, 3, 13]),
    ("8, 10", &[3, 6, 0, 1, 1, 13]),
    ("8, 11", &[2, 4, 0, 7]),
    ("8, 12", &[2, 3, 0, 7]),
    ("1 in the map, 9", &[0, 0]),
    ("4, 9", &[0, 0, 128, 0]),
    ("4, 1 in the rest", &[0, 6, 128]),
    ("4, 6", &[1, 7, 128, 2, 0, 3, 13]),
    ("4, 10", &[1, 6, 128, 1, 1, 13]),
    ("4, 11", &[0, 4, 128, 7]),
    ("4, 12", &[0, 3, 128, 7]),
    ("9, 1 in the rest", &[0, 0, 0]),
    ("9, 10", &[1, 0, 0, 0]),
    ("9, 12", &[0, 0, 0, 1]),
    ("1 in the rest, 6", &[1, 7, 0, 2, 0, 3]),
    ("1 in the rest, 10", &[1, 6, 0, 1, 1]),
    ("1 in the rest, 11", &[0, 4, 0]),
    ("6, 11", &[1, 6, 0, 2, 0, 13]),
    ("6, 12", &[1, 7, 0, 2, 2, 0, 13]),
    ("10, 11", &[1, 4, 0, 1, 7]),
    ("10, 12", &[1, 3, 0, 1, 1, 7]),
];

const MANY: Faults = Faults {
    before: &[0, 3, 0, 6],
    whole: &WHOLE,
    cut: &CUT,
    both: &BOTH,
};

// Of one member each row that names it pins it, so that none in order stands before.
const WHOLE_OF_ONE: [Faulty; 6] = [
    ("8, 11", &[2, 1, 0, 12]),
    ("4, 11", &[0, 1, 128, 12]),
    ("9", &[0, 0, 0, 0]),
    ("6", &[1, 1, 0, 0, 0]),
    ("10, 11", &[1, 1, 0, 1, 12]),
    ("11", &[0, 1, 0, 12]),
];

const CUT_OF_ONE: [Faulty; 2] = [("1 in the map", &[0, 1]), ("1 in the rest, 11", &[0, 1, 0])];

const BOTH_OF_ONE: [Faulty; 14] = [
    ("8, 1 in the map", &[2, 1]),
    ("8, 4", &[2, 1, 128, 12]),
    ("8, 9", &[2, 0, 0, 0]),
    ("8, 1 in the rest", &[2, 1, 0]),
    ("8, 6", &[3, 1, 0, 0, 0]),
    ("8, 10", &[3, 1, 0, 1, 12]),
    ("4, 9", &[0, 0, 128, 0]),
    ("4, 1 in the rest", &[0, 1, 128]),
    ("4, 6", &[1, 1, 128, 0, 0]),
    ("4, 10", &[1, 1, 128, 1, 12]),
    ("9, 1 in the rest", &[0, 0, 0]),
    ("9, 12", &[0, 0, 0, 1]),
    ("1 in the rest, 6", &[1, 1, 0, 0]),
    ("1 in the rest, 10", &[1, 1, 0, 1]),
];

const ONE: Faults = Faults {
    before: &[],
    whole: &WHOLE_OF_ONE,
    cut: &CUT_OF_ONE,
    both: &BOTH_OF_ONE,
};

pub(crate) fn run(rt: &HostRuntime) -> io::Result<()> {
    orders::all::<Ticks>(rt, "ticks", 1, &ONE)?;
    for n in [8, 9, 64] {
        orders::all::<Ticks>(rt, "ticks", n, &MANY)?;
    }
    Ok(())
}
