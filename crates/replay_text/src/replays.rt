// A whole replay.
ghost use Rattle.std.specs.Prelude.{◌≡◌, ◌≤◌, length, Some, IfSome, MatchResult};
ghost use Rattle.buffer.specs.Buffers.{Front};
ghost use Rattle.answer_log.specs.Rows.{header_bytes};
ghost use Rattle.session.specs.States.{server_of, members_of};
ghost use Rattle.replay_text.specs.Replays.{FirstLine, Stops};
ghost use Rattle.replay_text.specs.Handling.{Replays};

use crate::lines::handle_line;
use crate::outcome::{Replay, Stop};
use answer_log::write_header;
use refusal::Refusal;
use server::Server;
use session::Session;

// The most bytes of a text.
const LONGEST: usize = 65536;

// What has to be left of both buffers before each line: the longest answer, and the longest row of a log.
const ANSWER_ROOM: usize = 392;

const LOG_ROOM: usize = 139;

// The first line of what is left of a text and the rest after it, if there is room enough to handle the line.
fn first_line(rest: &[u8], room: usize, log_room: usize) -> Result<(&[u8], &[u8]), Refusal>
    requires { 1 ≤ length rest.now }
    ensures { MatchResult result (λ p. FirstLine rest.now room log_room p.0.now p.1.now) (λ e. Stops rest.now room log_room (Some e)) }
{
    if room < ANSWER_ROOM {
        return Err(Refusal::AnswersFull);
    }
    if log_room < LOG_ROOM {
        return Err(Refusal::LogFull);
    }
    match rest.iter().position(|b| *b == b'\n') {
        Some(end) => Ok((&rest[..end], &rest[end + 1..])),
        None => Err(Refusal::LineNotEnded),
    }
}

// Handles line after line of a text that is not too long, where the log has its header.
fn handle_lines<S: Server>(
    session: &mut Session<S>,
    text: &[u8],
    answers: &mut [u8],
    log: &mut [u8],
    header: usize,
) -> Replay
    requires text { length text.now ≤ 65536 }
    requires header { Front log.old log.old (header_bytes S.Over.Field.model (members_of session.old)) header }
    ensures begun { IfSome result.stop (λ x. 1 ≤ x.line) }
    ensures server { server_of session.new ≡ server_of session.old }
    ensures law { Replays session.old text.now answers.old log.old result answers.new log.new session.new }
{
    let mut done = Replay {
        lines: 0,
        answers: 0,
        log: header,
        stop: None,
    };
    let mut rest = text;
    // not a `for` over `split_inclusive`: its proof did not close in a function with this bound
    while !rest.is_empty() {
        let line = done.lines + 1;
        match first_line(rest, answers.len() - done.answers, log.len() - done.log) {
            Ok((bytes, after)) => {
                let room = &mut answers[done.answers..];
                let log_room = &mut log[done.log..];
                let used = handle_line(session, line, bytes, room, log_room);
                done.lines = line;
                done.answers += used.answers;
                done.log += used.log;
                rest = after;
            }
            Err(refusal) => {
                done.stop = Some(Stop { refusal, line });
                return done;
            }
        }
    }
    done
}

// Replays a text over a session: handles line after line, prints the answers, and logs the rows that are answered.
pub fn replay<S: Server>(
    session: &mut Session<S>,
    text: &[u8],
    answers: &mut [u8],
    log: &mut [u8],
) -> Replay
    ensures server { server_of session.new ≡ server_of session.old }
    ensures law { Replays session.old text.now answers.old log.old result answers.new log.new session.new }
    ensures not_begun { IfSome result.stop (λ x. x.line ≡ 0 → session.new ≡ session.old) }
    ensures not_printed { IfSome result.stop (λ x. x.line ≡ 0 → answers.new ≡ answers.old) }
    ensures not_logged { IfSome result.stop (λ x. x.line ≡ 0 → log.new ≡ log.old) }
{
    if text.len() > LONGEST {
        return Replay::not_begun(Refusal::TextTooLong);
    }
    match write_header::<S::Over>(session.count(), log) {
        Ok(header) => handle_lines(session, text, answers, log, header),
        Err(refusal) => Replay::not_begun(refusal),
    }
}
