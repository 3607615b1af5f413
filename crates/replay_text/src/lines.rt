// One line of a replay: what it prints, and what it logs.
ghost use Rattle.std.specs.Prelude.{◌≡◌, ◌<◌, ◌≤◌, length, IfSome};
ghost use Rattle.buffer.specs.Buffers.{Put};
ghost use Rattle.session.specs.States.{server_of};
ghost use Rattle.answer_text.specs.AnswerLines.{Short};
ghost use Rattle.request.specs.Carried.{outcome_told};
ghost use Rattle.replay_text.specs.Replays.{printed};
ghost use Rattle.replay_text.specs.Handling.{Loggable, logged_bytes, LineDone};

use answer_log::write_row;
use answer_text::{Answer, write_answer};
use field::Field;
use refusal::Refusal;
use request::{Outcome, RequestFault, carry_out};
use server::Server;
use session::Session;

// How many bytes of both buffers a line used.
#[derive(Clone, Copy)]
pub(crate) struct Used {
    pub answers: usize,
    pub log: usize,
}

// Prints what came of a line, and answers how many bytes that takes.
fn print<F: Field>(
    number: usize,
    n: usize,
    came: &Result<Outcome<F>, RequestFault>,
    out: &mut [u8],
) -> usize
    requires few { n ≤ 64 }
    requires number { number < 100000 }
    requires short { IfSome (outcome_told n came.now) Short }
    requires room { 392 ≤ length out.old }
    ensures { Put (printed number (outcome_told n came.now)) out.old out.new result }
{
    let answer = match came {
        Ok(Outcome::Skipped) => return 0,
        Ok(Outcome::Answered(_, figure)) => Answer::Figure(*figure),
        Ok(Outcome::Granted) => Answer::Granted,
        Ok(Outcome::Filled(table)) => Answer::Witness(&table[0..n]),
        Err(fault) => Answer::Refused(Refusal::from(*fault)),
    };
    write_answer(number, &answer, out).unwrap()
}

// Logs the row that a line had answered, if any, and answers how many bytes that takes.
fn note<F: Field>(came: &Result<Outcome<F>, RequestFault>, log: &mut [u8]) -> usize
    requires { Loggable F.model (length log.old) came.now }
    ensures { Put (logged_bytes F.model came.now) log.old log.new result }
{
    match came {
        Ok(Outcome::Answered(row, figure)) => write_row(row, *figure, log).unwrap(),
        _ => 0,
    }
}

// Handles a line: reads it, makes its calls, prints its answer and logs the row that was answered.
pub(crate) fn handle_line<S: Server>(
    session: &mut Session<S>,
    number: usize,
    line: &[u8],
    answers: &mut [u8],
    log: &mut [u8],
) -> Used
    requires number { number < 100000 }
    requires answers { 392 ≤ length answers.old }
    requires log { 139 ≤ length log.old }
    ensures server { server_of session.new ≡ server_of session.old }
    ensures within { (result.answers ≤ length answers.old) × (result.log ≤ length log.old) }
    ensures lengths { (length answers.new ≡ length answers.old) × (length log.new ≡ length log.old) }
    ensures done { LineDone session.old number line.now answers.old log.old session.new answers.new log.new result }
{
    let n = session.count();
    // By the law of a state that it stands for, what is told is short.
    session.stands();
    let came = carry_out(session, line);
    Used {
        answers: print(number, n, &came, answers),
        log: note(&came, log),
    }
}
