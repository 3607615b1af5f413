// The lines that list a server's table.
ghost use Rattle.std.specs.Prelude.{◌≡◌, ◌≢◌, MatchOption};
ghost use Rattle.server.specs.Tables.{value_at};

use field::Element;
use refusal::Member;
use server::Server;
use std::io;

// A member's value unless it is 0. A table file stores these, and no others.
fn stored<S: Server>(server: &S, m: Member) -> Option<Element>
    ensures { MatchOption result (value_at (S.table server.now) m.0 ≡ 0) (λ e. (e.0 ≡ value_at (S.table server.now) m.0) × (e.0 ≢ 0)) }
{
    server.value(m).filter(|value| *value != Element(0))
}

// The number of members, then a line for each stored value, by rising member.
pub(crate) fn print<S: Server>(rt: &HostRuntime, server: &S) -> io::Result<()> {
    let members = server.count();
    println!(rt; "members {members}")?;
    for m in 0..members {
        if let Some(value) = stored(server, Member(m)) {
            println!(rt; "{m} {value}")?;
        }
    }
    Ok(())
}
