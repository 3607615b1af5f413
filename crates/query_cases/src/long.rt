// Long lines: the longest that are read, and remarks of any length.
use crate::show;
use amounts::Amounts;
use std::alloc::{AllocError, Global};
use std::fmt::Write;
use std::io;

// A first byte, a second one, and digits up to the length.
const FILLED: [(&str, u8, u8, usize); 13] = [
    ("a, 638 digits: 640 bytes", b'a', b' ', 640),
    ("a, 639 digits: 641 bytes", b'a', b' ', 641),
    ("t, no space: 640 bytes", b't', b'0', 640),
    ("t, no space: 641 bytes", b't', b'0', 641),
    ("w, 638 digits: 640 bytes", b'w', b' ', 640),
    ("w, 639 digits: 641 bytes", b'w', b' ', 641),
    ("no such kind: 640 bytes", b'b', b' ', 640),
    ("no such kind: 641 bytes", b'b', b' ', 641),
    ("a space: 641 bytes", b' ', b'#', 641),
    ("a: 10,000 bytes", b'a', b' ', 10000),
    ("a remark: 640 bytes", b'#', b' ', 640),
    ("a remark: 641 bytes", b'#', b' ', 641),
    ("a remark: 10,000 bytes", b'#', b'a', 10000),
];

fn filled(rt: &HostRuntime) -> io::Result<()> {
    for (case, first, second, length) in FILLED {
        let mut line = [b'1'; 10000];
        line[0] = first;
        line[1] = second;
        show::named::<Amounts>(rt, case, &line[0..length.min(10000)], 64)?;
    }
    Ok(())
}

// All of 64 members, with a weight of five digits each: the longest line without a fault.
fn longest(heap: Global) -> Result<String, AllocError> {
    let mut line = String::from_str(heap, "a")?;
    for m in 0..64 {
        write!(line, " {m}:65520")?;
    }
    Ok(line)
}

// The longest line, then with more after it.
fn lengthened(rt: &HostRuntime) -> io::Result<()> {
    let mut line = longest(rt.alloc())?;
    let length = line.len();
    println!(rt; "the longest line has {length} bytes")?;
    show::named::<Amounts>(rt, "the longest line", line.as_bytes(), 64)?;
    show::named::<Amounts>(rt, "the same, 63 members", line.as_bytes(), 63)?;
    line.push_str(" 63")?;
    show::named::<Amounts>(rt, "and member 63 again", line.as_bytes(), 64)?;
    for _ in line.len()..640 {
        line.push_str("0")?;
    }
    show::named::<Amounts>(rt, "and digits up to 640 bytes", line.as_bytes(), 64)?;
    line.push_str("0")?;
    show::named::<Amounts>(rt, "and one more", line.as_bytes(), 64)
}

pub(crate) fn run(rt: &HostRuntime) -> io::Result<()> {
    println!(rt; "long lines, amounts, 64 members")?;
    filled(rt)?;
    lengthened(rt)
}
