// Sessions over wages 120, 95, 70, resumed from a log.
ghost use Rattle.std.specs.Prelude.{◌≡◌};

use amounts::Amounts;
use field::Element;
use record::Room;
use refusal::Refusal;
use server::{Array, Server};
use session::{Resumed, Session};
use shown::{Answered, Refused};
use std::{fmt, io};

const WAGES: [Element; 3] = [Element(120), Element(95), Element(70)];

const ROW_0_1: &[Element] = &[Element(1), Element(1), Element(0)];

const ROW_0_2: &[Element] = &[Element(1), Element(0), Element(1)];

const LOGS: [(&str, &[u8]); 5] = [
    ("no rows", &[1, 3]),
    (
        "the replay's log",
        &[1, 3, 0, 3, 0, 215, 0, 6, 0, 165, 1, 3, 0, 2, 0, 2, 1, 0xAE],
    ),
    ("a log of another table", &[1, 3, 0, 3, 0, 7]),
    ("a log of four members", &[1, 4]),
    ("a row that pins", &[1, 3, 0, 3, 0, 215, 0, 4, 0, 70]),
];

// What a row got: its permit's number, and its figure.
#[derive(Clone, Copy)]
struct Granted {
    permit: u16,
    figure: Element,
}

impl fmt::Display for Granted {
    fn fmt<W: fmt::Write>(&self, f: &mut fmt::Formatter<W>) -> fmt::Result {
        write!(f, "permit {}, {}", self.permit, self.figure)
    }
}

// Asks for a row's figure.
fn ask<S: Server>(session: &mut Session<S>, row: &[Element]) -> Result<Granted, Refusal>
    ensures server { session.new.server ≡ session.old.server }
{
    let mut permit = session.submit(row)?;
    let number = permit.number();
    let figure = session.answer(&mut permit)?;
    Ok(Granted {
        permit: number,
        figure,
    })
}

fn one(rt: &HostRuntime, case: &str, log: &[u8]) -> io::Result<()> {
    let server = match Array::<Amounts>::new(&WAGES) {
        Ok(server) => server,
        Err(refusal) => return println!(rt; "{case}: {}", Refused(refusal)),
    };
    let Resumed {
        mut session,
        refusal,
    } = Session::resume(server, Room::new(rt.alloc())?, log);
    let answer = match refusal {
        Some(refusal) => Err(refusal),
        None => Ok("accepted"),
    };
    println!(rt; "{case}: {}", Answered(answer))?;
    println!(rt; "  row 0 1: {}", Answered(ask(&mut session, ROW_0_1)))?;
    println!(rt; "  row 0 2: {}", Answered(ask(&mut session, ROW_0_2)))
}

pub(crate) fn run(rt: &HostRuntime) -> io::Result<()> {
    println!(rt; "resumed over 120, 95, 70")?;
    for (case, log) in LOGS {
        one(rt, case, log)?;
    }
    Ok(())
}
