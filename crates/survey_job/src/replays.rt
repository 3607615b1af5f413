// A replay over a new session.
ghost use Rattle.survey_job.specs.Jobs.{ReplaysOver};

use crate::memory::{JobMemory, ROOM};
use crate::stops::print_stop;
use replay_text::replay;
use server::Server;
use session::Session;

// What is printed, and the log of the answered rows.
#[derive(Drop)]
pub struct Job {
    pub printed: Vec<u8>,
    pub log: Vec<u8>,
}

// Begins a session on the server, replays the text over it, and adds the line of a stop to the
// answers.
pub(crate) fn replay_new<S: Server>(memory: JobMemory, server: &S, text: &[u8]) -> Job
    ensures { ReplaysOver S.Server S.Over.Field server.now text.now result }
{
    let JobMemory {
        room,
        mut printed,
        mut log,
    } = memory;
    let mut session = Session::new(server, room);
    // Not `..ROOM`: of a vector so lent, a proof learns nothing of what is in it afterwards.
    let done = replay(&mut session, text, &mut printed[0..ROOM], &mut log[..]);
    print_stop(&mut printed, done.answers, done.stop);
    log.truncate(done.log);
    Job { printed, log }
}
