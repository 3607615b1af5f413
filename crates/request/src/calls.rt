// A line, read and carried out: the calls that it makes of the session, and what comes of it.
ghost use Rattle.std.specs.Prelude.{◌≡◌, ℕ, ◌≤◌, IfOk, OnErr};
ghost use Rattle.field.specs.Sums.{weights_of};
ghost use Rattle.session.specs.States.{server_of, members_of};
ghost use Rattle.request.specs.Carried.{IsThatRow, AsksRow, TriesRow, MakesWitness, CarriedOut, ReadAs};

use crate::faults::RequestFault;
use crate::outcome::Outcome;
use checks::CheckedRow;
use field::Element;
use query::{Request, read_line};
use refusal::{Member, Refusal};
use server::Server;
use session::Session;

// Submits a row, and answers it. The row comes back as it was checked, to be logged.
fn ask<S: Server>(
    session: &mut Session<S>,
    row: &[Element],
) -> Result<(CheckedRow<S::Over>, Element), Refusal>
    ensures server { server_of session.new ≡ server_of session.old }
    ensures refused { OnErr result (session.new ≡ session.old) }
    ensures row { IfOk result (λ a. IsThatRow a.0 row.now (members_of session.old)) }
    ensures law { AsksRow session.old row.now result session.new }
{
    let mut permit = session.submit(row)?;
    let asked = session.opened().unwrap();
    let figure = session.answer(&mut permit).unwrap();
    Ok((asked, figure))
}

// Submits a row, and withdraws it.
fn attempt<S: Server>(session: &mut Session<S>, row: &[Element]) -> Result<(), Refusal>
    ensures server { server_of session.new ≡ server_of session.old }
    ensures refused { OnErr result (session.new ≡ session.old) }
    ensures law { TriesRow session.old row.now result session.new }
{
    let mut permit = session.submit(row)?;
    session.withdraw(&mut permit).unwrap();
    Ok(())
}

// The witness table for a member and an element, 0 from the count on.
fn witness_table<S: Server>(
    session: &Session<S>,
    member: Member,
    element: Element,
) -> Result<[Element; 64], Refusal>
    ensures zero { IfOk result (λ t. (m : ℕ) → members_of session.now ≤ m → weights_of t m ≡ 0) }
    ensures law { MakesWitness session.now member.0 element.0 result }
{
    let mut table = [Element(0); 64];
    session.witness(member, element, &mut table[..session.count()])?;
    Ok(table)
}

// Reads a line, and makes the calls that it wants.
pub fn carry_out<S: Server>(
    session: &mut Session<S>,
    line: &[u8],
) -> Result<Outcome<S::Over>, RequestFault>
    ensures server { server_of session.new ≡ server_of session.old }
    ensures refused { OnErr result (session.new ≡ session.old) }
    ensures read { ReadAs S.Over.Field.model (members_of session.old) line.now result }
    ensures law { CarriedOut session.old line.now result session.new }
{
    let n = session.count();
    match read_line::<S::Over>(line, n)? {
        Request::Ask(weights) => {
            let (row, figure) = ask(session, &weights.0[..n])?;
            Ok(Outcome::Answered(row, figure))
        }
        Request::Try(weights) => {
            attempt(session, &weights.0[..n])?;
            Ok(Outcome::Granted)
        }
        Request::Witness(member, element) => {
            let table = witness_table(session, member, element)?;
            Ok(Outcome::Filled(table))
        }
        Request::Remark => Ok(Outcome::Skipped),
    }
}
