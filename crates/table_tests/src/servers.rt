// Arrays, pairs, and sums of rows over servers.
use crate::show;
use amounts::Amounts;
use field::{Element, Field};
use refusal::{Member, Refusal};
use server::{Array, Pair, Server, row_sum};
use shown::Refused;
use std::io;
use table_file::TableFile;
use ticks::Ticks;

const WAGES: [Element; 3] = [Element(120), Element(95), Element(70)];

const VISITS: [Element; 3] = [Element(12), Element(10), Element(7)];

fn array<F: Field>(rt: &HostRuntime, case: &str, elements: &[Element]) -> io::Result<()> {
    show::made(rt, case, Array::<F>::new(elements))
}

fn arrays(rt: &HostRuntime) -> io::Result<()> {
    let many = [Element(1); 65];
    let strays = [Element(65522); 65];
    println!(rt; "arrays")?;
    array::<Amounts>(rt, "wages", &WAGES)?;
    array::<Amounts>(rt, "length 0", &[])?;
    array::<Amounts>(rt, "length 64", &many[..64])?;
    array::<Amounts>(rt, "length 65", &many)?;
    array::<Amounts>(rt, "greatest amount", &[Element(65520)])?;
    array::<Amounts>(
        rt,
        "lowest of two strays",
        &[Element(5), Element(65521), Element(70000)],
    )?;
    array::<Amounts>(rt, "length 65 of strays", &strays)?;
    array::<Ticks>(rt, "greatest tick", &[Element(255)])?;
    array::<Ticks>(
        rt,
        "past the ticks",
        &[Element(255), Element(0), Element(256)],
    )
}

// A pair of two servers, or the first refusal on the way to it.
fn join<L: Server + Drop, R: Server<Over = L::Over> + Drop>(
    left: Result<L, Refusal>,
    right: Result<R, Refusal>,
) -> Result<Pair<L, R>, Refusal> {
    Pair::new(left?, right?).map_err(|apart| apart.refusal)
}

fn pair<L: Server + Drop, R: Server<Over = L::Over> + Drop>(
    rt: &HostRuntime,
    case: &str,
    joined: Result<Pair<L, R>, Refusal>,
) -> io::Result<()> {
    match joined {
        Ok(both) => {
            show::table(rt, case, &both)?;
            show::value(rt, "member 2 of it", both.value(Member(2)))?;
            show::value(rt, "member 3 of it", both.value(Member(3)))
        }
        Err(refusal) => println!(rt; "{case}: {}", Refused(refusal)),
    }
}

// An array of amounts beside a file of them.
fn with_file(rt: &HostRuntime, case: &str, elements: &[Element], file: &[u8]) -> io::Result<()> {
    pair(
        rt,
        case,
        join(Array::<Amounts>::new(elements), TableFile::open(file)),
    )
}

// Two arrays of one field.
fn with_array<F: Field>(
    rt: &HostRuntime,
    case: &str,
    left: &[Element],
    right: &[Element],
) -> io::Result<()> {
    pair(rt, case, join(Array::<F>::new(left), Array::new(right)))
}

// Wages beside a pair of one file with itself.
fn with_pair(rt: &HostRuntime, case: &str, file: &[u8]) -> io::Result<()> {
    let both = join(TableFile::<Amounts>::open(file), TableFile::open(file));
    pair(rt, case, join(Array::<Amounts>::new(&WAGES), both))
}

fn pairs(rt: &HostRuntime) -> io::Result<()> {
    let file = [0x01, 0x03, 0x05, 0x00, 0x78, 0x00, 0x46];
    println!(rt; "pairs")?;
    with_file(rt, "wages and a file", &WAGES, &file)?;
    with_file(
        rt,
        "two wages and a file of three",
        &[Element(1), Element(2)],
        &file,
    )?;
    with_pair(rt, "wages and a pair", &file)?;
    with_array::<Amounts>(
        rt,
        "sums past 65520",
        &[Element(65520), Element(65520), Element(1)],
        &[Element(2), Element(1), Element(65519)],
    )?;
    with_array::<Ticks>(
        rt,
        "ticks",
        &VISITS,
        &[Element(10), Element(10), Element(255)],
    )?;
    with_array::<Ticks>(rt, "three ticks and one", &VISITS, &[Element(1)])
}

fn sums<F: Field>(
    rt: &HostRuntime,
    elements: &[Element],
    rows: &[(&str, &[Element])],
) -> io::Result<()> {
    match Array::<F>::new(elements) {
        Ok(table) => {
            for (case, row) in rows {
                show::number(rt, case, row_sum(&table, row))?;
            }
            Ok(())
        }
        Err(refusal) => println!(rt; "no table: {}", Refused(refusal)),
    }
}

const AMOUNT_ROWS: [(&str, &[Element]); 7] = [
    ("members 0 and 1", &[Element(1), Element(1), Element(0)]),
    ("members 1 and 2", &[Element(0), Element(1), Element(1)]),
    (
        "twice member 2 without member 0",
        &[Element(65520), Element(0), Element(2)],
    ),
    (
        "half of member 0",
        &[Element(32761), Element(0), Element(0)],
    ),
    ("nobody", &[Element(0), Element(0), Element(0)]),
    ("a row of one weight", &[Element(1)]),
    (
        "a row of four weights",
        &[Element(1), Element(1), Element(1), Element(1)],
    ),
];

const TICK_ROWS: [(&str, &[Element]); 3] = [
    ("members 0 and 1", &[Element(1), Element(1), Element(0)]),
    ("members 0 and 2", &[Element(1), Element(0), Element(1)]),
    (
        "2 of member 0 and 128 of member 2",
        &[Element(2), Element(0), Element(128)],
    ),
];

pub(crate) fn run(rt: &HostRuntime) -> io::Result<()> {
    arrays(rt)?;
    pairs(rt)?;
    println!(rt; "sums over wages")?;
    sums::<Amounts>(rt, &WAGES, &AMOUNT_ROWS)?;
    println!(rt; "sums over visits")?;
    sums::<Ticks>(rt, &VISITS, &TICK_ROWS)
}
