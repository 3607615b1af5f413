// Texts and buffers at their limits.
use crate::replays;
use crate::replays::Case;
use crate::worked::WAGES;
use amounts::Amounts;
use std::io;

// Two lines, the first of which prints 8 bytes and logs 4.
const TWO: &[u8] = b"a 0 1\na 1 2\n";

const TEXTS: [Case; 6] = [
    Case {
        name: "no text",
        text: b"",
        answers: 1000,
        log: 500,
    },
    Case {
        name: "no text, no answers, a log of 2",
        text: b"",
        answers: 0,
        log: 2,
    },
    Case {
        name: "one newline",
        text: b"\n",
        answers: 1000,
        log: 500,
    },
    Case {
        name: "one line without its newline",
        text: b"a 0 1",
        answers: 1000,
        log: 500,
    },
    Case {
        name: "a remark without its newline",
        text: b"a 0 1\n# and",
        answers: 1000,
        log: 500,
    },
    Case {
        name: "remarks alone",
        text: b"#\n# hours\n",
        answers: 1000,
        log: 500,
    },
];

const ANSWERS: [Case; 7] = [
    Case {
        name: "answers of 0",
        text: TWO,
        answers: 0,
        log: 500,
    },
    Case {
        name: "answers of 391",
        text: TWO,
        answers: 391,
        log: 500,
    },
    Case {
        name: "answers of 392",
        text: TWO,
        answers: 392,
        log: 500,
    },
    Case {
        name: "answers of 399",
        text: TWO,
        answers: 399,
        log: 500,
    },
    Case {
        name: "answers of 400",
        text: TWO,
        answers: 400,
        log: 500,
    },
    Case {
        name: "answers of 391, a remark",
        text: b"# hours\n",
        answers: 391,
        log: 500,
    },
    Case {
        name: "answers of 392, a remark first",
        text: b"# hours\na 0 1\n",
        answers: 392,
        log: 500,
    },
];

const LOGS: [Case; 10] = [
    Case {
        name: "log of 0",
        text: TWO,
        answers: 1000,
        log: 0,
    },
    Case {
        name: "log of 1",
        text: TWO,
        answers: 1000,
        log: 1,
    },
    Case {
        name: "log of 1, no text",
        text: b"",
        answers: 1000,
        log: 1,
    },
    Case {
        name: "log of 2",
        text: TWO,
        answers: 1000,
        log: 2,
    },
    Case {
        name: "log of 140",
        text: TWO,
        answers: 1000,
        log: 140,
    },
    Case {
        name: "log of 141",
        text: TWO,
        answers: 1000,
        log: 141,
    },
    Case {
        name: "log of 144",
        text: TWO,
        answers: 1000,
        log: 144,
    },
    Case {
        name: "log of 145",
        text: TWO,
        answers: 1000,
        log: 145,
    },
    Case {
        name: "log of 140, a remark",
        text: b"# hours\n",
        answers: 1000,
        log: 140,
    },
    Case {
        name: "log of 141, a refused line first",
        text: b"a 3\na 0 1\n",
        answers: 1000,
        log: 141,
    },
];

// Two stops at once: the earlier check counts.
const BOTH: [Case; 6] = [
    Case {
        name: "answers of 391, log of 140",
        text: TWO,
        answers: 391,
        log: 140,
    },
    Case {
        name: "answers of 391, log of 1",
        text: TWO,
        answers: 391,
        log: 1,
    },
    Case {
        name: "answers of 391, no newline",
        text: b"a 0 1",
        answers: 391,
        log: 500,
    },
    Case {
        name: "log of 140, no newline",
        text: b"a 0 1",
        answers: 1000,
        log: 140,
    },
    Case {
        name: "log of 1, no newline",
        text: b"a 0 1",
        answers: 1000,
        log: 1,
    },
    Case {
        name: "answers of 399, log of 144",
        text: TWO,
        answers: 399,
        log: 144,
    },
];

// Each over a session of its own.
fn each(rt: &HostRuntime, cases: &[Case]) -> io::Result<()> {
    for case in cases {
        replays::over::<Amounts>(rt, &WAGES, &[*case])?;
    }
    Ok(())
}

// The name, how many bytes, the last of them, and the bytes of both buffers.
const LONG: [(&str, usize, u8, usize, usize); 7] = [
    ("text of 65,536 bytes", 65536, b'\n', 1000, 500),
    ("text of 65,536 bytes, no newline", 65536, b'#', 1000, 500),
    ("text of 65,537 bytes", 65537, b'\n', 1000, 500),
    ("text of 65,537 bytes, no newline", 65537, b'#', 1000, 500),
    ("text of 65,537 bytes, answers of 0", 65537, b'\n', 0, 500),
    ("text of 65,537 bytes, log of 1", 65537, b'\n', 1000, 1),
    ("text of 65,537 bytes, log of 140", 65537, b'\n', 1000, 140),
];

// Texts of one remark.
fn long_texts(rt: &HostRuntime) -> io::Result<()> {
    for (name, length, last, answers, log) in LONG {
        let mut text = vec![in rt.alloc(); b'#'; length]?;
        text.pop();
        text.push(last)?;
        let case = Case {
            name,
            text: text.as_slice(),
            answers,
            log,
        };
        replays::over::<Amounts>(rt, &WAGES, &[case])?;
    }
    Ok(())
}

pub(crate) fn run(rt: &HostRuntime) -> io::Result<()> {
    each(rt, &TEXTS)?;
    long_texts(rt)?;
    each(rt, &ANSWERS)?;
    each(rt, &LOGS)?;
    each(rt, &BOTH)
}
