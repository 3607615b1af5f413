// The longest row of a log and the longest line of answers, in no more room than is asked for.
use crate::replays;
use crate::replays::Case;
use amounts::Amounts;
use field::Element;
use std::alloc::{AllocError, Global};
use std::fmt::Write;
use std::io;

const ONES: [Element; 64] = [Element(1); 64];

// All of 64 members, each with the greatest weight.
fn weighted(heap: Global) -> Result<String, AllocError> {
    let mut text = String::from_str(heap, "a")?;
    for m in 0..64 {
        write!(text, " {m}:65520")?;
    }
    text.push_str("\n")?;
    Ok(text)
}

// How far each member is from the last one, then remarks, and in line 10,000 a witness.
fn apart(heap: Global) -> Result<String, AllocError> {
    let mut text = String::new(heap);
    for m in 0..63 {
        writeln!(text, "a {m} 63:65520")?;
    }
    for _ in 63..9999 {
        text.push_str("#\n")?;
    }
    text.push_str("w 63 60000\n")?;
    Ok(text)
}

// A row of 139 bytes, for which there are 139.
fn longest_row(rt: &HostRuntime) -> io::Result<()> {
    let text = weighted(rt.alloc())?;
    let case = Case {
        name: "the longest row in the log",
        text: text.as_bytes(),
        answers: 392,
        log: 141,
    };
    replays::over::<Amounts>(rt, &ONES, &[case])
}

// 432 bytes of answers, and then a line of 392 bytes, for which there are 392.
fn longest_line(rt: &HostRuntime) -> io::Result<()> {
    let text = apart(rt.alloc())?;
    let case = Case {
        name: "the longest line of answers",
        text: text.as_bytes(),
        answers: 824,
        log: 2000,
    };
    replays::over::<Amounts>(rt, &ONES, &[case])
}

// Lines of 640 and 641 bytes, and a remark of 641.
fn long_lines(rt: &HostRuntime) -> io::Result<()> {
    let mut text = String::new(rt.alloc());
    for (first, length) in [("a", 640), ("a", 641), ("#", 641), ("t", 641), ("w", 640)] {
        text.push_str(first)?;
        for _ in 1..length {
            text.push_str("1")?;
        }
        text.push_str("\n")?;
    }
    let case = Case {
        name: "lines of 640 and 641 bytes",
        text: text.as_bytes(),
        answers: 1000,
        log: 500,
    };
    replays::over::<Amounts>(rt, &ONES, &[case])
}

pub(crate) fn run(rt: &HostRuntime) -> io::Result<()> {
    longest_row(rt)?;
    longest_line(rt)?;
    long_lines(rt)
}
