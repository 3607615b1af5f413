// How answers are shown.
use field::{Element, Field};
use record::{Admission, Judgement, Record, RowNumber};
use shown::Row;
use std::{fmt, io};

// A judgement, in words.
#[derive(Clone, Copy)]
pub(crate) struct Judged(pub Judgement);

impl fmt::Display for Judged {
    fn fmt<W: fmt::Write>(&self, f: &mut fmt::Formatter<W>) -> fmt::Result {
        match self.0 {
            Judgement::Fixed(figure) => write!(f, "fixed at {figure}"),
            Judgement::Pinning(member) => write!(f, "pins member {}", member.0),
            Judgement::Free => f.write_str("free"),
        }
    }
}

// What became of a row, in words.
#[derive(Clone, Copy)]
pub(crate) struct Admitted(pub Admission);

impl fmt::Display for Admitted {
    fn fmt<W: fmt::Write>(&self, f: &mut fmt::Formatter<W>) -> fmt::Result {
        f.write_str(match self.0 {
            Admission::Joined => "joined",
            Admission::Kept => "kept",
        })
    }
}

pub(crate) fn table(rt: &HostRuntime, case: &str, elements: &[Element]) -> io::Result<()> {
    print!(rt; "{case}:")?;
    for e in elements {
        print!(rt; " {e}")?;
    }
    println!(rt; "")
}

// The rows of a record, and that there is none after the last.
pub(crate) fn rows<F: Field>(rt: &HostRuntime, case: &str, rec: &Record<F>) -> io::Result<()> {
    let rows = rec.row_count();
    println!(rt; "{case}: rows {rows}")?;
    for found in (0..rows).filter_map(|k| rec.row(RowNumber(k))) {
        let row = Row {
            weights: &found.row.weights[..rec.count()],
            figure: found.row.figure,
        };
        println!(rt; "{row}, pivot {}", found.pivot.0)?;
    }
    match rec.row(RowNumber(rows)) {
        Some(_) => println!(rt; "a row too many"),
        None => Ok(()),
    }
}
