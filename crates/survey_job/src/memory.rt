// What a job needs of memory, had before the job begins, so that the job wants none.
ghost use Rattle.std.specs.Prelude.{◌≡◌, IfOk};
ghost use Rattle.survey_job.specs.Buffers.{zeros, zeros_and_line};

use record::Room;
use std::alloc::{AllocError, Global};

// How many bytes the answers may take, and how many the log.
pub(crate) const ROOM: usize = 65536;

// The most bytes of the line of a stop: a mark, two numbers of 20 digits after a space each, and a
// newline.
const LONGEST_LINE: usize = 44;

// Room for the record's rows, and two buffers of zeros: one for what is printed, which is the answers
// and the line of a stop, and one for the log.
#[derive(Drop)]
pub struct JobMemory {
    pub(crate) room: Room,
    pub(crate) printed: Vec<u8>,
    pub(crate) log: Vec<u8>,
    ghost blank: { printed.items ≡ zeros_and_line },
    ghost blank_log: { log.items ≡ zeros },
}

impl JobMemory {
    ghost use Rattle.survey_job.specs.Memory.{room_for_answers, room_for_log};

    // Fails only for want of memory.
    pub fn new(heap: Global) -> Result<JobMemory, AllocError>
        ensures answers { IfOk result (λ m. room_for_answers m ≡ zeros_and_line) }
        ensures log { IfOk result (λ m. room_for_log m ≡ zeros) }
    {
        let room = Room::new(heap)?;
        let printed = Vec::from_elem(heap, 0, ROOM + LONGEST_LINE)?;
        let log = Vec::from_elem(heap, 0, ROOM)?;
        Ok(JobMemory { room, printed, log })
    }
}
