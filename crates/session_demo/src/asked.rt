// The survey by single calls: rows that are answered, and one that is only tried.
use crate::clients::{ask_once, try_once};
use crate::listed::{SHOPS_0_1, SHOPS_0_2, SHOPS_1_2};
use field::Element;
use record::Room;
use refusal::Refusal;
use server::Array;
use session::Session;
use shown::{Answered, Refused};
use std::{fmt, io};
use ticks::Ticks;

// How often the three shops were visited.
const VISITS: [Element; 3] = [Element(12), Element(10), Element(7)];

const ALL: &[Element] = &[Element(1), Element(1), Element(1)];

fn told<T: fmt::Display + Drop>(
    rt: &HostRuntime,
    case: &str,
    answer: Result<T, Refusal>,
) -> io::Result<()> {
    println!(rt; "{case}: {}", Answered(answer))
}

pub(crate) fn run(rt: &HostRuntime) -> io::Result<()> {
    println!(rt; "single calls")?;
    let server = match Array::<Ticks>::new(&VISITS) {
        Ok(server) => server,
        Err(refusal) => return println!(rt; "{}", Refused(refusal)),
    };
    let mut session = Session::new(server, Room::new(rt.alloc())?);
    let taken_back = |()| "taken back";
    told(rt, "try 0 1 2", try_once(&mut session, ALL).map(taken_back))?;
    told(rt, "ask 0 1", ask_once(&mut session, SHOPS_0_1))?;
    told(rt, "ask 1 2", ask_once(&mut session, SHOPS_1_2))?;
    told(rt, "ask 0 2", ask_once(&mut session, SHOPS_0_2))?;
    told(rt, "ask 0 1 2", ask_once(&mut session, ALL))?;
    told(rt, "try 0 1 2", try_once(&mut session, ALL).map(taken_back))
}
