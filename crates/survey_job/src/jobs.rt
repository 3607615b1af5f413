// The whole job.
ghost use Rattle.std.specs.Prelude.{◌≡◌, ◌≤◌, []};
ghost use Rattle.refusal.specs.Numbered.{number, detail};
ghost use Rattle.answer_text.specs.AnswerLines.{refusal_line_lem};
ghost use Rattle.survey_job.specs.Jobs.{Printed};

use crate::memory::JobMemory;
use crate::replays::{Job, replay_new};
use answer_text::write_refusal;
use field::Field;
use refusal::Refusal;
use table_file::TableFile;

// The line of a refused table file, and an empty log. Such a refusal comes with a member or a map
// bit at most.
fn refuse(memory: JobMemory, refusal: &Refusal) -> Job
    requires { detail refusal.now ≤ 255 }
    ensures printed { result.printed.items ≡ refusal_line_lem (number refusal.now) (detail refusal.now) }
    ensures log { result.log.items ≡ [] }
{
    let JobMemory {
        room: _,
        mut printed,
        mut log,
    } = memory;
    let length = write_refusal(refusal, &mut printed[..]).unwrap();
    printed.truncate(length);
    log.clear();
    Job { printed, log }
}

// Opens a table file, and replays a text over a new session on its table. A refused file gives the
// line that says so.
pub fn run_job<F: Field>(memory: JobMemory, table: &[u8], text: &[u8]) -> Job
    ensures { Printed F.model table.now text.now result.printed.items result.log.items }
{
    match TableFile::<F>::open(table) {
        Ok(server) => replay_new(memory, &server, text),
        Err(refusal) => refuse(memory, &refusal),
    }
}
