// Two faults in one log, of which the first by the rules counts: in its header and a row, in one row, in two rows.
use field::Field;
use log_record::{ReadLog, read_record};
use member_map::map_length;
use record::Room;
use refusal::Refusal;
use shown::Refused;
use std::alloc::{AllocError, Global};
use std::{fmt, io};

// The faults of a row, and its bytes for any count: mark, first and last byte of the map, and what follows. Where there
// are two bytes, the map is cut.
pub(crate) type Faulty<'a> = (&'a str, &'a [u8]);

#[derive(Clone, Copy)]
pub(crate) struct Faults<'a> {
    // A row in order, which stands before each faulty one, or none.
    pub before: &'a [u8],
    // Rows of one fault: those that are whole, which another row can follow, and those that are cut.
    pub whole: &'a [Faulty<'a>],
    pub cut: &'a [Faulty<'a>],
    // Rows of two faults.
    pub both: &'a [Faulty<'a>],
}

// A log, in hexadecimal.
#[derive(Clone, Copy)]
struct Hex<'a>(&'a [u8]);

impl fmt::Display for Hex<'_> {
    fn fmt<W: fmt::Write>(&self, f: &mut fmt::Formatter<W>) -> fmt::Result {
        for byte in self.0 {
            write!(f, "{byte:02X} ")?;
        }
        Ok(())
    }
}

// Whether a row can have its faults: a stray bit stands where the map has one to spare, and nobody is named by what is
// left of a cut map of several bytes.
fn can_stand(row: &[u8], n: u8) -> bool {
    match row {
        [_, 0] => n > 8,
        [_, _, 128, ..] => n % 8 != 0,
        _ => true,
    }
}

// Adds a row to a log of n members.
fn add(log: &mut Vec<u8>, row: &[u8], n: u8) -> Result<(), AllocError> {
    let [mark, first, more @ ..] = row else {
        return Ok(());
    };
    let last = map_length(n).clamp(1, 8) - 1;
    let mut map = [0; 8];
    map[0] = *first;
    log.push(*mark)?;
    let Some((bits, rest)) = more.split_first() else {
        return log.extend_from_slice(&map[..last]);
    };
    map[last] |= *bits;
    log.extend_from_slice(&map[..=last])?;
    log.extend_from_slice(rest)
}

fn made(heap: Global, header: &[u8], n: u8, rows: &[&[u8]]) -> Result<Vec<u8>, AllocError> {
    let mut log = Vec::from_slice(heap, header)?;
    for row in rows {
        add(&mut log, row, n)?;
    }
    Ok(log)
}

fn refusal<F: Field>(heap: Global, log: &[u8], n: u8) -> Result<Option<Refusal>, AllocError> {
    let ReadLog { record: _, refusal } = read_record::<F>(Room::new(heap)?, usize::from(n), log);
    Ok(refusal)
}

// A log with its refusal.
fn one<F: Field>(rt: &HostRuntime, case: &str, n: u8, log: &[u8]) -> io::Result<()> {
    match refusal::<F>(rt.alloc(), log, n)? {
        Some(found) => println!(rt; "{case}: {}{}", Hex(log), Refused(found)),
        None => println!(rt; "{case}: {}accepted", Hex(log)),
    }
}

// The refusals of a log that goes on with each row of one fault.
fn followed<F: Field>(
    rt: &HostRuntime,
    faults: &Faults,
    n: u8,
    header: &[u8],
    row: &[u8],
) -> io::Result<()> {
    for (_, next) in faults.whole.iter().chain(faults.cut) {
        if can_stand(next, n) {
            let log = made(rt.alloc(), header, n, &[faults.before, row, next])?;
            match refusal::<F>(rt.alloc(), &log, n)? {
                Some(found) => print!(rt; " {}-{}", found.number(), found.detail())?,
                None => print!(rt; " accepted")?,
            }
        }
    }
    println!(rt; "")
}

fn in_rows<F: Field>(rt: &HostRuntime, faults: &Faults, n: u8) -> io::Result<()> {
    let header = [F::kind(), n];
    for (case, row) in faults.whole.iter().chain(faults.cut).chain(faults.both) {
        if can_stand(row, n) {
            let log = made(rt.alloc(), &header, n, &[faults.before, row])?;
            one::<F>(rt, case, n, &log)?;
        }
    }
    for (case, row) in faults.whole {
        if can_stand(row, n) {
            print!(rt; "{case}, then each:")?;
            followed::<F>(rt, faults, n, &header, row)?;
        }
    }
    Ok(())
}

// Over one field and count: rows of one fault and of two, each of one before each of one, and faulty headers before
// each of one.
pub(crate) fn all<F: Field>(
    rt: &HostRuntime,
    field: &str,
    n: u8,
    faults: &Faults,
) -> io::Result<()> {
    println!(rt; "{field}, {n} members, faults in order")?;
    in_rows::<F>(rt, faults, n)?;
    print!(rt; "another kind, then each:")?;
    followed::<F>(rt, faults, n, &[F::kind() ^ 3, n], &[])?;
    print!(rt; "count 0, then each:")?;
    followed::<F>(rt, faults, n, &[F::kind(), 0], &[])?;
    print!(rt; "another count, then each:")?;
    followed::<F>(rt, faults, n, &[F::kind(), 65_u8.saturating_sub(n)], &[])
}
