// The writers of a log and its rewriting, in buffers of so many bytes: each refusal, and the order between two.
use amounts::Amounts;
use answer_log::{write_header, write_row};
use checks::CheckedRow;
use field::Element;
use log_record::rewrite_accepted;
use record::Room;
use refusal::Refusal;
use shown::Refused;
use std::io;

// What stands in a buffer before.
const MARK: u8 = 0xEE;

// The name, the count of members, and the bytes of the buffer.
const HEADERS: [(&str, usize, usize); 7] = [
    ("count 0", 0, 2),
    ("count 65", 65, 2),
    ("count 0, room 1", 0, 1),
    ("room 0", 3, 0),
    ("room 1", 3, 1),
    ("room 2", 3, 2),
    ("64 members, room 3", 64, 3),
];

const PLAIN: &[u32] = &[1, 1, 0];

// The name, the count, weights, figure, and the bytes of the buffer.
const ROWS: [(&str, usize, &[u32], u32, usize); 23] = [
    ("count 0", 0, PLAIN, 215, 8),
    ("count 65, three weights", 65, PLAIN, 215, 8),
    ("count 0, room 0", 0, PLAIN, 215, 0),
    ("two weights", 3, &[1, 1], 215, 8),
    ("four weights, one 65521", 3, &[1, 65521, 0, 0], 215, 8),
    ("two weights of 0", 3, &[0, 0], 0, 8),
    ("two weights, figure 65521", 3, &[1, 1], 65521, 8),
    ("two weights, room 0", 3, &[1, 1], 215, 0),
    ("weights 65521 and 65535", 3, &[0, 65521, 65535], 5, 8),
    ("weight 65521, figure 65521", 3, &[0, 0, 65521], 65521, 8),
    ("weight 65521, room 0", 3, &[0, 0, 65521], 5, 0),
    ("nobody", 3, &[0, 0, 0], 0, 8),
    ("nobody, figure 65521", 3, &[0, 0, 0], 65521, 8),
    ("nobody, room 0", 3, &[0, 0, 0], 0, 0),
    ("figure 65521", 3, PLAIN, 65521, 8),
    ("figure 65521, room 0", 3, PLAIN, 65521, 0),
    ("room 0", 3, PLAIN, 215, 0),
    ("room 3", 3, PLAIN, 215, 3),
    ("room 4", 3, PLAIN, 215, 4),
    ("room 6", 3, PLAIN, 215, 6),
    ("weights 2 and 2, room 7", 3, &[2, 2, 0], 430, 7),
    ("weights 2 and 2, room 8", 3, &[2, 2, 0], 430, 8),
    ("weights 1 and 65520", 3, &[1, 0, 65520], 50, 10),
];

const LOG: &[u8] = &[1, 3, 0, 3, 0, 215, 0, 6, 0, 165, 1, 3, 0, 2, 0, 2, 1, 0xAE];

// The name, a log of three members, and the bytes of the buffer.
const LOGS: [(&str, &[u8], usize); 6] = [
    ("the replay's log, room 0", LOG, 0),
    ("the replay's log, room 17", LOG, 17),
    ("the replay's log, room 18", LOG, 18),
    ("the replay's log, room 20", LOG, 20),
    ("mark 2, room 0", &[1, 3, 2], 0),
    ("a row that pins, room 8", &[1, 3, 0, 4, 0, 70], 8),
];

// What a writer answered, and the whole buffer after it.
fn shown(
    rt: &HostRuntime,
    case: &str,
    came: Result<usize, Refusal>,
    buffer: &[u8],
) -> io::Result<()> {
    match came {
        Ok(length) => print!(rt; "{case}: wrote {length},")?,
        Err(refusal) => print!(rt; "{case}: {},", Refused(refusal))?,
    }
    for byte in buffer {
        print!(rt; " {byte:02X}")?;
    }
    println!(rt; "")
}

// Makes a row of `n` weights, and writes it.
fn write(n: usize, weights: &[Element], figure: Element, out: &mut [u8]) -> Result<usize, Refusal> {
    write_row::<Amounts>(&CheckedRow::new(weights, n)?, figure, out)
}

fn row(
    rt: &HostRuntime,
    case: &str,
    n: usize,
    weights: &[u32],
    figure: u32,
    room: usize,
) -> io::Result<()> {
    let mut row = Vec::new(rt.alloc());
    for weight in weights {
        row.push(Element(*weight))?;
    }
    let mut buffer = vec![in rt.alloc(); MARK; room]?;
    let came = write(n, &row, Element(figure), buffer.as_mut_slice());
    shown(rt, case, came, &buffer)
}

pub(crate) fn run(rt: &HostRuntime) -> io::Result<()> {
    println!(rt; "headers written, amounts")?;
    for (case, n, room) in HEADERS {
        let mut buffer = vec![in rt.alloc(); MARK; room]?;
        let came = write_header::<Amounts>(n, buffer.as_mut_slice());
        shown(rt, case, came, &buffer)?;
    }
    println!(rt; "rows written, amounts")?;
    for (case, n, weights, figure, room) in ROWS {
        row(rt, case, n, weights, figure, room)?;
    }
    println!(rt; "logs written again, amounts")?;
    for (case, log, room) in LOGS {
        let mut buffer = vec![in rt.alloc(); MARK; room]?;
        let came = rewrite_accepted::<Amounts>(
            Room::new(rt.alloc())?,
            3,
            log,
            buffer.as_mut_slice(),
        );
        shown(rt, case, came, &buffer)?;
    }
    Ok(())
}
