// Memory for a record's rows, had before the record begins, so that no later call can want any.
ghost use Rattle.std.specs.Prelude.{◌≡◌, ◌≤◌, [], IfOk, vec_capacity};

use crate::rows::RecordRow;
use std::alloc::{AllocError, Global};

// No rows yet, and memory for 64.
#[derive(Drop)]
pub struct Room {
    rows: Vec<RecordRow>,
    ghost empty: { rows.items ≡ [] },
    ghost wide: { 64 ≤ vec_capacity rows },
}

impl Room {
    ghost use Rattle.record.specs.Rooms.{room_rows, room_capacity};

    // Fails only for want of memory.
    pub fn new(heap: Global) -> Result<Room, AllocError>
        ensures empty { IfOk result (λ m. room_rows m ≡ []) }
        ensures wide { IfOk result (λ m. 64 ≤ room_capacity m) }
    {
        let mut rows = Vec::new(heap);
        rows.reserve(64)?;
        Ok(Room { rows })
    }

    // The memory itself.
    pub(crate) fn into_rows(self) -> Vec<RecordRow>
        ensures empty { result.items ≡ [] }
        ensures wide { 64 ≤ vec_capacity result }
    {
        let Room { rows } = self;
        rows
    }
}
