// How answers are shown.
use field::{Element, Field};
use query::{LineFault, Request, Weights, read_line};
use refusal::Refusal;
use std::{fmt, io};

// Each named member with its weight.
#[derive(Clone, Copy)]
struct Weighted<'a>(&'a Weights);

impl fmt::Display for Weighted<'_> {
    fn fmt<W: fmt::Write>(&self, f: &mut fmt::Formatter<W>) -> fmt::Result {
        for (m, weight) in self.0.0.iter().enumerate() {
            if *weight != Element(0) {
                write!(f, " {m}:{weight}")?;
            }
        }
        Ok(())
    }
}

// What a line wants, or its fault as a number and a place.
#[derive(Clone, Copy)]
struct Read<'a>(&'a Result<Request, LineFault>);

impl fmt::Display for Read<'_> {
    fn fmt<W: fmt::Write>(&self, f: &mut fmt::Formatter<W>) -> fmt::Result {
        match self.0 {
            Ok(Request::Ask(row)) => write!(f, "ok, asks{}", Weighted(row)),
            Ok(Request::Try(row)) => write!(f, "ok, tries{}", Weighted(row)),
            Ok(Request::Witness(member, element)) => {
                write!(f, "ok, witness {} {element}", member.0)
            }
            Ok(Request::Remark) => f.write_str("ok, remark"),
            Err(fault) => {
                let refusal = Refusal::from(*fault);
                write!(f, "{} {}", refusal.number(), refusal.detail())
            }
        }
    }
}

// The answer alone, and no newline.
pub(crate) fn answer<F: Field>(rt: &HostRuntime, line: &[u8], n: usize) -> io::Result<()> {
    print!(rt; "{}", Read(&read_line::<F>(line, n)))
}

// A case by its name alone.
pub(crate) fn named<F: Field>(
    rt: &HostRuntime,
    case: &str,
    line: &[u8],
    n: usize,
) -> io::Result<()> {
    println!(rt; "{case}: {}", Read(&read_line::<F>(line, n)))
}

// Each case by its name and its line.
pub(crate) fn all<F: Field>(
    rt: &HostRuntime,
    title: &str,
    n: usize,
    cases: &[(&str, &str)],
) -> io::Result<()> {
    println!(rt; "{title}")?;
    for (case, line) in cases {
        let read = read_line::<F>(line.as_bytes(), n);
        println!(rt; "{case} {line:?}: {}", Read(&read))?;
    }
    Ok(())
}
