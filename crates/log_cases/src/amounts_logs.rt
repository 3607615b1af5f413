// Logs over amounts.
use crate::cases;
use crate::cases::Case;
use amounts::Amounts;
use std::io;

const HEADERS: [Case; 14] = [
    ("no bytes", 3, &[]),
    ("one byte", 3, &[1]),
    ("one byte of another kind", 3, &[2]),
    ("another kind", 3, &[2, 3]),
    ("another kind, count 0", 3, &[2, 0]),
    ("another kind, count 4", 3, &[2, 4]),
    ("count 0", 3, &[1, 0]),
    ("count 65", 3, &[1, 65]),
    ("count 65, for 65", 65, &[1, 65]),
    ("count 4", 3, &[1, 4]),
    ("count 3, for none", 0, &[1, 3]),
    ("count 4, and a bad row", 3, &[1, 4, 2]),
    ("count 0, for none", 0, &[1, 0]),
    ("no rows", 3, &[1, 3]),
];

const ROWS: [Case; 24] = [
    ("mark 2", 3, &[1, 3, 2, 3, 0, 215]),
    ("mark 128, and no map", 3, &[1, 3, 128]),
    ("no map", 3, &[1, 3, 0]),
    ("bit 3", 3, &[1, 3, 0, 11, 0, 215]),
    ("bit 3 alone, and no figure", 3, &[1, 3, 0, 8]),
    ("nobody named", 3, &[1, 3, 0, 0, 0, 215]),
    ("nobody named, and no figure", 3, &[1, 3, 0, 0]),
    ("half a figure", 3, &[1, 3, 0, 3, 0]),
    ("weights and no figure", 3, &[1, 3, 1, 3, 0, 2, 0, 2]),
    (
        "weight 65535, half a figure",
        3,
        &[1, 3, 1, 3, 255, 255, 0, 2, 1],
    ),
    ("weight 65521", 3, &[1, 3, 1, 3, 0, 2, 255, 241, 0, 5]),
    ("weight 0", 3, &[1, 3, 1, 3, 0, 2, 0, 0, 0, 5]),
    (
        "weights 0 and 65535",
        3,
        &[1, 3, 1, 3, 0, 0, 255, 255, 0, 5],
    ),
    (
        "weights 65535 and 0",
        3,
        &[1, 3, 1, 3, 255, 255, 0, 0, 0, 5],
    ),
    ("weights 1 and 0", 3, &[1, 3, 1, 3, 0, 1, 0, 0, 0, 5]),
    ("weights 1 and 1", 3, &[1, 3, 1, 3, 0, 1, 0, 1, 0, 5]),
    (
        "weights 1 and 1, figure 65535",
        3,
        &[1, 3, 1, 3, 0, 1, 0, 1, 255, 255],
    ),
    (
        "weight 0, figure 65535",
        3,
        &[1, 3, 1, 3, 0, 2, 0, 0, 255, 255],
    ),
    ("figure 65521", 3, &[1, 3, 0, 3, 255, 241]),
    ("member 2 alone, figure 65535", 3, &[1, 3, 0, 4, 255, 255]),
    ("member 2 alone", 3, &[1, 3, 0, 4, 0, 70]),
    ("members 0 and 1", 3, &[1, 3, 0, 3, 0, 215]),
    ("a byte after it", 3, &[1, 3, 0, 3, 0, 215, 0]),
    ("weights 2 and 1", 3, &[1, 3, 1, 3, 0, 2, 0, 1, 1, 79]),
];

const LATER: [Case; 8] = [
    (
        "the replay's log",
        3,
        &[1, 3, 0, 3, 0, 215, 0, 6, 0, 165, 1, 3, 0, 2, 0, 2, 1, 0xAE],
    ),
    (
        "twice 0 and 1 with another figure",
        3,
        &[1, 3, 0, 3, 0, 215, 0, 6, 0, 165, 1, 3, 0, 2, 0, 2, 1, 0xAF],
    ),
    ("a row again", 3, &[1, 3, 0, 3, 0, 215, 0, 3, 0, 215]),
    (
        "a row again, otherwise",
        3,
        &[1, 3, 0, 3, 0, 215, 0, 3, 0, 214],
    ),
    (
        "a row that pins",
        3,
        &[1, 3, 0, 3, 0, 215, 0, 6, 0, 165, 0, 5, 0, 190],
    ),
    (
        "a row that pins, figure 65535",
        3,
        &[1, 3, 0, 3, 0, 215, 0, 6, 0, 165, 0, 5, 255, 255],
    ),
    ("mark 4 in the second row", 3, &[1, 3, 0, 3, 0, 215, 4]),
    ("a row again, cut", 3, &[1, 3, 0, 3, 0, 215, 0, 3, 0]),
];

const COUNTS: [Case; 12] = [
    ("one member, no rows", 1, &[1, 1]),
    ("one member named", 1, &[1, 1, 0, 1, 0, 5]),
    ("one member, bit 1", 1, &[1, 1, 0, 2, 0, 5]),
    ("eight members", 8, &[1, 8, 0, 255, 0, 36]),
    (
        "eight, and the last seven",
        8,
        &[1, 8, 0, 255, 0, 36, 0, 254, 0, 35],
    ),
    ("nine members, half a map", 9, &[1, 9, 0, 255]),
    ("nine members, bit 9", 9, &[1, 9, 0, 1, 2, 0, 9]),
    ("nine members, bit 15", 9, &[1, 9, 0, 1, 129, 0, 9]),
    ("nine members, 0 and 8", 9, &[1, 9, 0, 1, 1, 0, 9]),
    (
        "nine members, 8 twice",
        9,
        &[1, 9, 1, 1, 1, 0, 1, 0, 2, 0, 9],
    ),
    (
        "64 members, 0 and 63",
        64,
        &[1, 64, 0, 1, 0, 0, 0, 0, 0, 0, 128, 0, 9],
    ),
    (
        "64 members, seven bytes of map",
        64,
        &[1, 64, 0, 1, 0, 0, 0, 0, 0, 0],
    ),
];

pub(crate) fn run(rt: &HostRuntime) -> io::Result<()> {
    cases::all::<Amounts>(rt, "amounts, headers", &HEADERS)?;
    cases::all::<Amounts>(rt, "amounts, the first row", &ROWS)?;
    cases::all::<Amounts>(rt, "amounts, later rows", &LATER)?;
    cases::all::<Amounts>(rt, "amounts, other counts", &COUNTS)
}
