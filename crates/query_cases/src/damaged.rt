// A line of each sort, damaged at each place: cut there, the byte missing, or another in its place.
use crate::show;
use amounts::Amounts;
use std::alloc::AllocError;
use std::io;

const LINES: [&str; 6] = ["a 0", "a 0 2:13 1", "t 1:70 0", "w 2 65519", "w 1 0", "# x"];

const OTHERS: [u8; 7] = [b' ', b':', b'0', b'9', b'x', b'w', b'#'];

// Puts other bytes after the front of a line.
fn ended(line: &mut Vec<u8>, front: &[u8], more: &[u8]) -> Result<(), AllocError> {
    line.clear();
    line.extend_from_slice(front)?;
    line.extend_from_slice(more)
}

fn at_place(rt: &HostRuntime, whole: &[u8], at: usize) -> io::Result<()> {
    let (front, back) = whole.split_at(at.min(whole.len()));
    let rest = back.get(1..).unwrap_or(back);
    let mut line = Vec::new(rt.alloc());
    ended(&mut line, front, &[])?;
    print!(rt; "{at}, cut: ")?;
    show::answer::<Amounts>(rt, &line, 3)?;
    ended(&mut line, front, rest)?;
    print!(rt; "; missing: ")?;
    show::answer::<Amounts>(rt, &line, 3)?;
    for other in OTHERS {
        ended(&mut line, front, &[other])?;
        line.extend_from_slice(rest)?;
        print!(rt; "; {:?}: ", char::from(other))?;
        show::answer::<Amounts>(rt, &line, 3)?;
    }
    println!(rt; "")
}

pub(crate) fn run(rt: &HostRuntime) -> io::Result<()> {
    for line in LINES {
        println!(rt; "{line:?} damaged at each place, amounts, 3 members")?;
        for at in 0..line.len() {
            at_place(rt, line.as_bytes(), at)?;
        }
    }
    Ok(())
}
