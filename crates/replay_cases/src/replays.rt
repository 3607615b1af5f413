// Replays over one session, one text after another.
ghost use Rattle.std.specs.Prelude.{◌≡◌};

use crate::show;
use crate::show::MARK;
use field::{Element, Field};
use record::Room;
use replay_text::replay;
use server::{Array, Server};
use session::Session;
use shown::Refused;
use std::io;

// A text with its name, and the bytes of both buffers.
#[derive(Clone, Copy)]
pub(crate) struct Case<'a> {
    pub name: &'a str,
    pub text: &'a [u8],
    pub answers: usize,
    pub log: usize,
}

fn one<S: Server>(rt: &HostRuntime, session: &mut Session<S>, case: Case) -> io::Result<()>
    ensures server { session.new.server ≡ session.old.server }
{
    let mut answers = vec![in rt.alloc(); MARK; case.answers]?;
    let mut log = vec![in rt.alloc(); MARK; case.log]?;
    let done = replay(
        session,
        case.text,
        answers.as_mut_slice(),
        log.as_mut_slice(),
    );
    show::replayed(rt, case.name, &done, answers.as_slice(), log.as_slice())
}

fn texts<S: Server>(rt: &HostRuntime, session: &mut Session<S>, cases: &[Case]) -> io::Result<()> {
    for case in cases {
        one(rt, session, *case)?;
    }
    Ok(())
}

// Texts over one new session, one after another.
pub(crate) fn over<F: Field>(
    rt: &HostRuntime,
    values: &[Element],
    cases: &[Case],
) -> io::Result<()> {
    let server = match Array::<F>::new(values) {
        Ok(server) => server,
        Err(refusal) => return println!(rt; "{}", Refused(refusal)),
    };
    let mut session = Session::new(server, Room::new(rt.alloc())?);
    texts(rt, &mut session, cases)
}
