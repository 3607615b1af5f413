// Replays the query text of standard input over the table of the file `table.dat`, and prints the answers.
#![tactic(auto)]

ghost use Rattle.std.specs.Prelude.{◌≡◌, ◌≢◌, take, IfOk, IfErr, IfSome};
ghost use Rattle.std.specs.IoError.{error_kind};

use std::alloc::Global;
use std::io::{ErrorKind, Read};
use std::{fs, io};
use survey_job::JobMemory;

mod choice;

// A text has at most 65,536 bytes: one more tells that it is too long.
const ENOUGH: u64 = 65537;

// A missing file counts as an empty one. A match: in a closure of `or_else` the kind would be tested all the same.
fn read_table(rt: &HostRuntime) -> io::Result<Vec<u8>>
    ensures { IfErr result (λ e. error_kind e ≢ ErrorKind.NotFound) }
{
    match fs::read(rt, "table.dat") {
        Ok(bytes) => Ok(bytes),
        Err(e) if e.kind() == ErrorKind::NotFound => Ok(Vec::new(rt.alloc())),
        Err(e) => Err(e),
    }
}

fn read_text<R: Read + Drop>(heap: Global, input: R) -> io::Result<Vec<u8>>
    ensures { IfOk result (λ text. IfSome (R.remaining input) (λ all. text.items ≡ take 65537 all)) }
{
    let mut text = Vec::new(heap);
    input.take(ENOUGH).read_to_end(&mut text)?;
    Ok(text)
}

fn main(rt: HostRuntime) -> io::Result<()> {
    let table = read_table(&rt)?;
    let text = read_text(rt.alloc(), rt.stdin())?;
    let memory = JobMemory::new(rt.alloc())?;
    let job = choice::run(memory, &table, &text);
    rt.write_all(&job.printed)
}
