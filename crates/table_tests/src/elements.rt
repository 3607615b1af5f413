// Elements: sums, products, opposites and inverses of both fields, and their bytes.
use crate::show;
use amounts::Amounts;
use field::{Element, Field, decode, element_width, encode};
use std::io;
use ticks::Ticks;

fn results(rt: &HostRuntime, field: &str, cases: &[(&str, Element)]) -> io::Result<()> {
    println!(rt; "{field}")?;
    for (case, e) in cases {
        show::number(rt, case, *e)?;
    }
    Ok(())
}

fn operations(rt: &HostRuntime) -> io::Result<()> {
    let amounts = [
        ("65520 plus 2", Amounts::add(Element(65520), Element(2))),
        ("300 times 300", Amounts::mul(Element(300), Element(300))),
        ("opposite of 1", Amounts::neg(Element(1))),
        ("opposite of 0", Amounts::neg(Element(0))),
        ("inverse of 2", Amounts::inv(Element(2))),
        ("inverse of 0", Amounts::inv(Element(0))),
    ];
    let ticks = [
        ("12 plus 10", Ticks::add(Element(12), Element(10))),
        ("2 times 128", Ticks::mul(Element(2), Element(128))),
        ("opposite of 7", Ticks::neg(Element(7))),
        ("inverse of 3", Ticks::inv(Element(3))),
        ("inverse of 0", Ticks::inv(Element(0))),
    ];
    results(rt, "amounts", &amounts)?;
    results(rt, "ticks", &ticks)
}

fn field<F: Field>(rt: &HostRuntime) -> io::Result<()> {
    println!(rt;
        "kind {}, size {}, bytes of an element {}",
        F::kind(),
        F::size(),
        element_width::<F>()
    )
}

// The bytes are written over the front of some that are all 9.
fn encoded<F: Field>(rt: &HostRuntime, code: u32, room: &mut [u8]) -> io::Result<()> {
    room.fill(9);
    let length = room.len();
    match encode::<F>(Element(code), room) {
        Some(count) => println!(rt; "{code} into {length}: wrote {count}, then {room:?}"),
        None => println!(rt; "{code} into {length}: wrote nothing, then {room:?}"),
    }
}

fn encodings<F: Field>(rt: &HostRuntime) -> io::Result<()> {
    field::<F>(rt)?;
    for code in [0, 255, 256, 258, 65520, 65521] {
        encoded::<F>(rt, code, &mut [0; 3])?;
    }
    encoded::<F>(rt, 7, &mut [0; 2])?;
    encoded::<F>(rt, 7, &mut [0; 1])?;
    encoded::<F>(rt, 7, &mut [])
}

fn decodings<F: Field>(rt: &HostRuntime) -> io::Result<()> {
    for at in [0, 1, 2, 3, usize::MAX] {
        println!(rt; "1 2 3 from {at}: {}", decode::<F>(&[1, 2, 3], at))?;
    }
    Ok(())
}

fn bytes<F: Field>(rt: &HostRuntime) -> io::Result<()> {
    encodings::<F>(rt)?;
    decodings::<F>(rt)
}

pub(crate) fn run(rt: &HostRuntime) -> io::Result<()> {
    operations(rt)?;
    bytes::<Amounts>(rt)?;
    bytes::<Ticks>(rt)
}
