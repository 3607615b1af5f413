// What is asked of a record, one thing after another.

use crate::show;
use crate::show::{Admitted, Judged};
use checks::CheckedRow;
use field::{Element, Field};
use record::{Admission, Judgement, Record, Room};
use refusal::{Member, Refusal};
use shown::{Answered, Refused};
use std::io;

#[derive(Clone, Copy)]
pub(crate) enum Ask<'a> {
    Rows,
    Judge(&'a [Element]),
    // A row with its figure.
    Admit(&'a [Element], Element),
    // The member, the element, and the length of the buffer.
    Witness(Member, Element, usize),
}

// The buffer holds 9 throughout, and shows what is written over it.
fn witness<F: Field>(
    rt: &HostRuntime,
    case: &str,
    rec: &Record<F>,
    member: Member,
    element: Element,
    length: usize,
) -> io::Result<()> {
    let mut room = [Element(9); 64];
    let out = &mut room[0..length.min(64)];
    match rec.witness(member, element, out) {
        Ok(()) => show::table(rt, case, out),
        Err(refusal) => {
            println!(rt; "{case}: {}", Refused(refusal))?;
            show::table(rt, "its buffer", out)
        }
    }
}

fn judge<F: Field>(rec: &Record<F>, row: &[Element]) -> Result<Judgement, Refusal> {
    Ok(rec.judge(&CheckedRow::new(row, rec.count())?))
}

fn admit<F: Field>(
    rec: &mut Record<F>,
    row: &[Element],
    figure: Element,
) -> Result<Admission, Refusal> {
    rec.admit(&CheckedRow::new(row, rec.count())?, figure)
}

fn one<F: Field>(rt: &HostRuntime, case: &str, rec: &mut Record<F>, ask: Ask) -> io::Result<()> {
    match ask {
        Ask::Rows => show::rows(rt, case, rec),
        Ask::Judge(row) => { println!(rt; "{case}: {}", Answered(judge(rec, row).map(Judged))) }
        Ask::Admit(row, figure) => {
            println!(rt;
                "{case}: {}",
                Answered(admit(rec, row, figure).map(Admitted))
            )
        }
        Ask::Witness(member, element, length) => witness(rt, case, rec, member, element, length),
    }
}

fn each<F: Field>(rt: &HostRuntime, rec: &mut Record<F>, asks: &[(&str, Ask)]) -> io::Result<()> {
    for (case, ask) in asks {
        one(rt, case, rec, *ask)?;
    }
    Ok(())
}

// Asks of a new record for so many members.
pub(crate) fn all<F: Field>(
    rt: &HostRuntime,
    title: &str,
    members: usize,
    asks: &[(&str, Ask)],
) -> io::Result<()> {
    println!(rt; "{title}")?;
    let mut rec = Record::<F>::new(Room::new(rt.alloc())?, members);
    each(rt, &mut rec, asks)
}
