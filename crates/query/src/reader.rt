// The reader of a line.
ghost use Rattle.std.specs.Prelude.{◌≤◌};

use crate::items::Limits;

// A line, and what numbers are in range in it. There are at most 64 members.
#[derive(Clone, Copy)]
pub(crate) struct Reader<'a> {
    pub line: &'a [u8],
    pub limits: Limits,
    ghost few: { limits.members ≤ 64 },
}
