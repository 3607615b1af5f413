// The field that a table file is read in.
ghost use Rattle.survey_job.specs.Jobs.{Printed};
ghost use Rattle.replay.specs.Choice.{chosen_field};

use amounts::Amounts;
use field::Field;
use survey_job::{Job, JobMemory, run_job};
use ticks::Ticks;

// Does the job in the field that the kind byte chooses. Any kind but that of ticks, and none, is taken as amounts.
pub(crate) fn run(memory: JobMemory, table: &[u8], text: &[u8]) -> Job
    ensures { Printed (chosen_field table.now) table.now text.now result.printed.items result.log.items }
{
    if table.first() == Some(&Ticks::kind()) {
        run_job::<Ticks>(memory, table, text)
    } else {
        run_job::<Amounts>(memory, table, text)
    }
}
