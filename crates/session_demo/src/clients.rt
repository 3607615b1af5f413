// Two clients of a session: one has a row answered, one tries a row and takes it back. They are what any client writes, and so
// stand here and not in a crate below.
ghost use Rattle.std.specs.Prelude.{◌≡◌};
ghost use Rattle.session.specs.States.{server_of, held_record};

use field::Element;
use refusal::Refusal;
use server::Server;
use session::Session;

// Submits a row, and answers it where it is granted.
pub(crate) fn ask_once<S: Server>(
    session: &mut Session<S>,
    weights: &[Element],
) -> Result<Element, Refusal>
    ensures server { server_of session.new ≡ server_of session.old }
{
    let mut permit = session.submit(weights)?;
    session.answer(&mut permit)
}

// Submits a row, and withdraws it where it is granted: whether it would be.
pub(crate) fn try_once<S: Server>(
    session: &mut Session<S>,
    weights: &[Element],
) -> Result<(), Refusal>
    ensures server { server_of session.new ≡ server_of session.old }
    ensures kept { held_record session.new ≡ held_record session.old }
{
    let mut permit = session.submit(weights)?;
    session.withdraw(&mut permit)
}
