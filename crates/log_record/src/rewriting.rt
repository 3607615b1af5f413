// A log that is accepted, written again: the check that an office runs on its logs.
ghost use Rattle.std.specs.Prelude.{◌≡◌, length, Some, None, OnOk, IfOk, OnErr, IfErr};
ghost use Rattle.buffer.specs.Buffers.{Put};
ghost use Rattle.log_record.specs.Rewrites.{Rewrites};

use crate::reading::read_record;
use answer_log::rewrite;
use field::Field;
use record::Room;
use refusal::Refusal;

// Reads a log for a server of `n` members and, if it is accepted, writes header and rows again, to the front of `out`: the same
// bytes. Answers how many.
pub fn rewrite_accepted<F: Field>(
    room: Room,
    n: usize,
    log: &[u8],
    out: &mut [u8],
) -> Result<usize, Refusal>
    ensures written { OnOk result (Rewrites F.model n log.now (length out.old) None) }
    ensures bytes { IfOk result (λ k. Put log.now out.old out.new k) }
    ensures refused { IfErr result (λ e. Rewrites F.model n log.now (length out.old) (Some e)) }
    ensures kept { OnErr result (out.new ≡ out.old) }
{
    match read_record::<F>(room, n, log).refusal {
        Some(e) => Err(e),
        None => rewrite::<F>(log, n, out),
    }
}
