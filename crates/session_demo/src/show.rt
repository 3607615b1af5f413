// How calls and their replies are shown.
use field::Element;
use refusal::Refusal;
use session::{Call, Reply};
use shown::{Listed, Refused};
use std::fmt;

// The named members of a row, each with its weight unless that is 1.
#[derive(Clone, Copy)]
struct Named<'a>(&'a [Element]);

impl fmt::Display for Named<'_> {
    fn fmt<W: fmt::Write>(&self, f: &mut fmt::Formatter<W>) -> fmt::Result {
        for (m, weight) in self.0.iter().enumerate() {
            match weight.0 {
                0 => {}
                1 => write!(f, " {m}")?,
                _ => write!(f, " {m}:{weight}")?,
            }
        }
        Ok(())
    }
}

// A call of a list.
#[derive(Clone, Copy)]
pub(crate) struct Asked<'a>(pub &'a Call<'a>);

impl fmt::Display for Asked<'_> {
    fn fmt<W: fmt::Write>(&self, f: &mut fmt::Formatter<W>) -> fmt::Result {
        match self.0 {
            Call::Submit(weights) => {
                let named = Named(weights);
                write!(f, "submit{named}")
            }
            Call::Answer(number) => write!(f, "answer {number}"),
            Call::Withdraw(number) => write!(f, "withdraw {number}"),
            Call::Witness(member, element, _) => {
                write!(f, "witness of {} at {element}", member.0)
            }
        }
    }
}

// What a witness call brought, and holds then; nothing of another call.
fn buffer<'a>(call: &'a Call) -> &'a [Element] {
    match call {
        Call::Witness(_, _, buffer) => buffer,
        _ => &[],
    }
}

// The reply to a call, or its refusal; of a witness what its buffer then holds.
#[derive(Clone, Copy)]
pub(crate) struct Replied<'a> {
    pub call: &'a Call<'a>,
    pub reply: &'a Result<Reply, Refusal>,
}

impl fmt::Display for Replied<'_> {
    fn fmt<W: fmt::Write>(&self, f: &mut fmt::Formatter<W>) -> fmt::Result {
        match self.reply {
            Ok(Reply::Permits(number)) => write!(f, "permit {number}"),
            Ok(Reply::Gives(figure)) => write!(f, "{figure}"),
            Ok(Reply::TakenBack) => f.write_str("taken back"),
            Ok(Reply::Filled) => {
                let filled = Listed {
                    elements: buffer(self.call),
                    between: " ",
                };
                write!(f, "{filled}")
            }
            Err(refusal) => write!(f, "{}", Refused(*refusal)),
        }
    }
}
