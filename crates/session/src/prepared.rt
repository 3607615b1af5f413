// A run: a new session over any server, given any list of calls.
ghost use Rattle.std.specs.Prelude.{◌≡◌, ◌≤◌, vec_len, vec_capacity};

use crate::calls::{Call, Reply};
use crate::session::Session;
use record::Room;
use refusal::Refusal;
use server::Server;
use std::alloc::{AllocError, Global};

// A list of calls, with the memory that a session and its replies take, so that the run of them cannot fail.
#[derive(Drop)]
pub struct Prepared<'a> {
    calls: Vec<Call<'a>>,
    replies: Vec<Result<Reply, Refusal>>,
    room: Room,
    ghost none_yet: { vec_len replies ≡ 0 },
    ghost wide: { vec_len calls ≤ vec_capacity replies },
}

// The session as the calls left it, the calls with their buffers filled, and a reply to each.
#[derive(Drop)]
pub struct Run<'a, S: Server> {
    pub session: Session<S>,
    pub calls: Vec<Call<'a>>,
    pub replies: Vec<Result<Reply, Refusal>>,
}

impl<'a> Prepared<'a> {
    ghost use Rattle.std.specs.Prelude.{IfOk};
    ghost use Rattle.session.specs.Runs.{calls_of, Ran};

    // Fails only for want of memory.
    pub fn new(heap: Global, calls: Vec<Call<'a>>) -> Result<Prepared<'a>, AllocError>
        ensures { IfOk result (λ p. calls_of p ≡ calls.entry.items) }
    {
        let room = Room::new(heap)?;
        let mut replies = Vec::new(heap);
        replies.reserve(calls.len())?;
        Ok(Prepared {
            calls,
            replies,
            room,
        })
    }

    // Begins a session over a server, and makes every call. What is promised of a run holds of this one, with no premise.
    pub fn run<S: Server>(self, server: S) -> Run<'a, S>
        ensures assured { Ran server (calls_of self.entry) result.calls.items result.replies.items result.session }
    {
        let Prepared {
            mut calls,
            mut replies,
            room,
        } = self;
        let mut session = Session::new(server, room);
        for call in calls.iter_mut() {
            replies.push_reserved(session.reply_to(call));
        }
        Run {
            session,
            calls,
            replies,
        }
    }
}
