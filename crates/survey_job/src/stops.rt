// The line of a stop.
ghost use Rattle.std.specs.Prelude.{◌≡◌, ◌+◌, ◌≤◌, ◌++◌, take, vec_len};
ghost use Rattle.survey_job.specs.Buffers.{stop_text};

use answer_text::write_stop;
use replay_text::Stop;

// Ends what is printed after the answers, with the line of a stop, if there was one.
pub(crate) fn print_stop(printed: &mut Vec<u8>, answers: usize, stop: Option<Stop>)
    requires { answers + 44 ≤ vec_len printed.old }
    ensures { printed.new.items ≡ take answers printed.old.items ++ stop_text stop }
{
    let Some(found) = stop else {
        printed.truncate(answers);
        return;
    };
    let length = write_stop(&found.refusal, found.line, &mut printed[answers..]).unwrap();
    printed.truncate(answers + length);
}
