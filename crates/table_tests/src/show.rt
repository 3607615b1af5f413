// How answers are shown.
use field::Element;
use refusal::{Member, Refusal};
use server::Server;
use shown::Refused;
use std::io;

pub(crate) fn number(rt: &HostRuntime, case: &str, e: Element) -> io::Result<()> {
    println!(rt; "{case}: {e}")
}

// One value, which a server may lack.
pub(crate) fn value(rt: &HostRuntime, case: &str, found: Option<Element>) -> io::Result<()> {
    match found {
        Some(e) => number(rt, case, e),
        None => println!(rt; "{case}: absent"),
    }
}

// The count, then each value.
pub(crate) fn table<S: Server>(rt: &HostRuntime, case: &str, server: &S) -> io::Result<()> {
    let members = server.count();
    print!(rt; "{case}: count {members}, values")?;
    for e in (0..members).filter_map(|m| server.value(Member(m))) {
        print!(rt; " {e}")?;
    }
    println!(rt; "")
}

// A server that was made, or why it was not.
pub(crate) fn made<S: Server + Drop>(
    rt: &HostRuntime,
    case: &str,
    made: Result<S, Refusal>,
) -> io::Result<()> {
    match made {
        Ok(server) => table(rt, case, &server),
        Err(refusal) => println!(rt; "{case}: {}", Refused(refusal)),
    }
}
