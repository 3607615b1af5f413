// What a replay answers.
ghost use Rattle.std.specs.Prelude.{◌≡◌};
ghost use Rattle.replay_text.specs.Replays.{nothing_done, stop_number_lem, stop_line_lem};

use refusal::Refusal;

// Why a replay stopped, and before which line; line 0 where it did not begin.
#[derive(Clone, Copy)]
pub struct Stop {
    pub refusal: Refusal,
    pub line: usize,
}

// How many lines were handled, remarks too, how many bytes of both buffers were used, and the stop, if there was one.
#[derive(Clone, Copy)]
pub struct Replay {
    pub lines: usize,
    pub answers: usize,
    pub log: usize,
    pub stop: Option<Stop>,
}

impl Replay {
    // Nothing was handled or written.
    pub(crate) fn not_begun(refusal: Refusal) -> Replay
        ensures { result ≡ nothing_done refusal }
    {
        Replay {
            lines: 0,
            answers: 0,
            log: 0,
            stop: Some(Stop { refusal, line: 0 }),
        }
    }

    // The number of the stop, 0 where there was none.
    pub fn stop_number(&self) -> u8
        ensures { result ≡ stop_number_lem self.now.stop }
    {
        self.stop.map_or(0, |stop| stop.refusal.number())
    }

    // The line before which it stopped, 0 where there was no stop.
    pub fn stop_line(&self) -> usize
        ensures { result ≡ stop_line_lem self.now.stop }
    {
        self.stop.map_or(0, |stop| stop.line)
    }
}
