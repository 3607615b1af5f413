// The worked replay of docs/RULES.md, and one over ticks.
use crate::replays;
use crate::replays::Case;
use amounts::Amounts;
use field::Element;
use std::io;
use ticks::Ticks;

pub(crate) const WAGES: [Element; 3] = [Element(120), Element(95), Element(70)];

const VISITS: [Element; 3] = [Element(12), Element(10), Element(7)];

const HOURS: Case = Case {
    name: "the worked replay",
    text: b"# hours\na 0 1\na 1 2\nt 0 2\nw 0 0\na 0:2 1:2\na 3\n",
    answers: 1000,
    log: 500,
};

const ROUNDS: Case = Case {
    name: "a replay over ticks",
    text: b"a 0 1\na 1 2\na 0 2\nt 0 1 2\nw 0 0\nt 0:2 1:2\na 0:3 1:3\na 2:256\n",
    answers: 1000,
    log: 500,
};

// A stop in the last line. Of the lines before it the session keeps what it answered.
const STOPPED: Case = Case {
    name: "a last line without its newline",
    text: b"a 0 1\na 1 2\na 0 2",
    answers: 1000,
    log: 500,
};

const AFTER: Case = Case {
    name: "a second text over that session",
    text: b"a 0 2\nw 0 0\n",
    answers: 1000,
    log: 500,
};

pub(crate) fn run(rt: &HostRuntime) -> io::Result<()> {
    replays::over::<Amounts>(rt, &WAGES, &[HOURS])?;
    replays::over::<Ticks>(rt, &VISITS, &[ROUNDS])?;
    replays::over::<Amounts>(rt, &WAGES, &[STOPPED, AFTER])
}
