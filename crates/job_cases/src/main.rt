// Whole jobs, each over a given field: prints what `run_job` answers for a table file and a text, and the log.
#![tactic(auto)]

use amounts::Amounts;
use field::Field;
use std::io;
use survey_job::{Job, JobMemory, run_job};
use ticks::Ticks;

// A table file and a text.
#[derive(Clone, Copy)]
struct Case<'a> {
    name: &'a str,
    table: &'a [u8],
    text: &'a [u8],
}

// The values 120, 95 and 70, and the worked replay of docs/RULES.md.
const WAGES: &[u8] = &[0x01, 0x03, 0x07, 0x00, 0x78, 0x00, 0x5F, 0x00, 0x46];

const HOURS: &[u8] = b"# hours\na 0 1\na 1 2\nt 0 2\nw 0 0\na 0:2 1:2\na 3\n";

// Over amounts.
const AMOUNTS: [Case; 8] = [
    Case {
        name: "the worked replay",
        table: WAGES,
        text: HOURS,
    },
    Case {
        name: "a member with nothing stored",
        table: &[0x01, 0x03, 0x05, 0x00, 0x78, 0x00, 0x46],
        text: b"a 0 1\na 1 2\n",
    },
    Case {
        name: "no text",
        table: WAGES,
        text: b"",
    },
    Case {
        name: "a last line without its newline",
        table: WAGES,
        text: b"a 0 1\n# and\na 1 2",
    },
    Case {
        name: "no table",
        table: b"",
        text: HOURS,
    },
    Case {
        name: "a table of ticks",
        table: &[0x02, 0x01, 0x00],
        text: HOURS,
    },
    Case {
        name: "a bit past the count",
        table: &[0x01, 0x03, 0x0D, 0x00, 0x78, 0x00, 0x46],
        text: HOURS,
    },
    Case {
        name: "a value that is no element",
        table: &[0x01, 0x03, 0x05, 0x00, 0x78, 0xFF, 0xF1],
        text: HOURS,
    },
];

// Over ticks.
const TICKS: [Case; 2] = [
    Case {
        name: "a replay over ticks",
        table: &[0x02, 0x03, 0x07, 0x0C, 0x0A, 0x07],
        text: b"a 0 1\na 1 2\na 0:3 1:3\nw 0 0\n",
    },
    Case {
        name: "a table of amounts",
        table: WAGES,
        text: HOURS,
    },
];

fn show(rt: &HostRuntime, name: &str, job: &Job) -> io::Result<()> {
    println!(rt; "{name}")?;
    rt.write_all(&job.printed)?;
    print!(rt; "log")?;
    for byte in job.log.iter() {
        print!(rt; " {byte:02X}")?;
    }
    println!(rt; "")
}

fn jobs<F: Field>(rt: &HostRuntime, cases: &[Case]) -> io::Result<()> {
    for case in cases {
        let job = run_job::<F>(JobMemory::new(rt.alloc())?, case.table, case.text);
        show(rt, case.name, &job)?;
    }
    Ok(())
}

fn main(rt: HostRuntime) -> io::Result<()> {
    jobs::<Amounts>(&rt, &AMOUNTS)?;
    jobs::<Ticks>(&rt, &TICKS)
}
