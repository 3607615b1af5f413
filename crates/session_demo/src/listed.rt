// The survey as one list of calls, given to a run.
use crate::show::{Asked, Replied};
use amounts::Amounts;
use field::Element;
use refusal::Member;
use server::Array;
use session::{Call, Prepared};
use shown::Refused;
use std::alloc::{AllocError, Global};
use std::io;

// What the three shops took.
const TAKINGS: [Element; 3] = [Element(120), Element(95), Element(70)];

pub(crate) const SHOPS_0_1: &[Element] = &[Element(1), Element(1), Element(0)];

pub(crate) const SHOPS_1_2: &[Element] = &[Element(0), Element(1), Element(1)];

pub(crate) const SHOPS_0_2: &[Element] = &[Element(1), Element(0), Element(1)];

const TWICE_0_1: &[Element] = &[Element(2), Element(2), Element(0)];

const SHOP_2: &[Element] = &[Element(0), Element(0), Element(1)];

// The calls, of which the last two bring a buffer each.
fn survey<'a>(
    heap: Global,
    first: &'a mut [Element],
    second: &'a mut [Element],
) -> Result<Vec<Call<'a>>, AllocError> {
    let mut calls = Vec::new(heap);
    calls.push(Call::Submit(SHOP_2))?;
    calls.push(Call::Answer(1))?;
    calls.push(Call::Submit(SHOPS_0_1))?;
    calls.push(Call::Submit(SHOPS_1_2))?;
    calls.push(Call::Answer(1))?;
    calls.push(Call::Answer(1))?;
    calls.push(Call::Submit(SHOPS_0_2))?;
    calls.push(Call::Withdraw(2))?;
    calls.push(Call::Submit(SHOPS_1_2))?;
    calls.push(Call::Answer(3))?;
    calls.push(Call::Submit(SHOPS_0_2))?;
    calls.push(Call::Submit(TWICE_0_1))?;
    calls.push(Call::Answer(4))?;
    calls.push(Call::Witness(Member(0), Element(0), first))?;
    calls.push(Call::Witness(Member(2), Element(70), second))?;
    Ok(calls)
}

pub(crate) fn run(rt: &HostRuntime) -> io::Result<()> {
    println!(rt; "a list of calls")?;
    let server = match Array::<Amounts>::new(&TAKINGS) {
        Ok(server) => server,
        Err(refusal) => return println!(rt; "{}", Refused(refusal)),
    };
    let mut first = [Element(0); 3];
    let mut second = [Element(0); 3];
    let calls = survey(rt.alloc(), &mut first, &mut second)?;
    let done = Prepared::new(rt.alloc(), calls)?.run(&server);
    for (call, reply) in done.calls.iter().zip(done.replies.iter()) {
        let asked = Asked(call);
        let replied = Replied { call, reply };
        println!(rt; "{asked}: {replied}")?;
    }
    Ok(())
}
