// Logs over ticks, where every byte is an element.
use crate::cases;
use crate::cases::Case;
use std::io;
use ticks::Ticks;

const LOGS: [Case; 17] = [
    ("kind of amounts", 3, &[1, 3]),
    ("count 0", 3, &[2, 0]),
    ("count 8", 3, &[2, 8]),
    ("no rows", 3, &[2, 3]),
    ("no figure", 3, &[2, 3, 0, 3]),
    ("bit 7", 3, &[2, 3, 0, 129, 6]),
    ("weight 0", 3, &[2, 3, 1, 3, 0, 2, 6]),
    ("weights 1 and 1", 3, &[2, 3, 1, 3, 1, 1, 6]),
    ("member 0 alone", 3, &[2, 3, 0, 1, 12]),
    ("all three pairs", 3, &[2, 3, 0, 3, 6, 0, 6, 13, 0, 5, 11]),
    (
        "all three pairs, otherwise",
        3,
        &[2, 3, 0, 3, 6, 0, 6, 13, 0, 5, 10],
    ),
    (
        "and all three members",
        3,
        &[2, 3, 0, 3, 6, 0, 6, 13, 0, 5, 11, 0, 7, 1],
    ),
    ("twice 0 and 1", 3, &[2, 3, 0, 3, 6, 1, 3, 2, 2, 12]),
    ("one member named", 1, &[2, 1, 0, 1, 12]),
    ("eight members", 8, &[2, 8, 0, 255, 255]),
    ("nine members, 0 and 8", 9, &[2, 9, 0, 1, 1, 6]),
    (
        "64 members, 0 and 63",
        64,
        &[2, 64, 0, 1, 0, 0, 0, 0, 0, 0, 128, 6],
    ),
];

pub(crate) fn run(rt: &HostRuntime) -> io::Result<()> {
    cases::all::<Ticks>(rt, "ticks", &LOGS)
}
