// How a replay is shown.
use replay_text::Replay;
use std::io;

// What stands in both buffers before a replay.
pub(crate) const MARK: u8 = 0xEE;

// The five numbers that a replay answers.
fn numbers(rt: &HostRuntime, case: &str, done: &Replay) -> io::Result<()> {
    println!(rt;
        "{case}: lines {}, answers {}, log {}, stop {}, line {}",
        done.lines,
        done.answers,
        done.log,
        done.stop_number(),
        done.stop_line(),
    )
}

// The answers, which are text.
fn answers(rt: &HostRuntime, buffer: &[u8], used: usize) -> io::Result<()> {
    rt.write_all(&buffer[0..used.min(buffer.len())])
}

// The log, in hexadecimal.
fn log(rt: &HostRuntime, buffer: &[u8], used: usize) -> io::Result<()> {
    print!(rt; "log")?;
    for byte in buffer.iter().take(used) {
        print!(rt; " {byte:02X}")?;
    }
    println!(rt; "")
}

// Whether each byte past those used is still the mark.
fn rest(rt: &HostRuntime, name: &str, buffer: &[u8], used: usize) -> io::Result<()> {
    if buffer.iter().skip(used).all(|byte| *byte == MARK) {
        return Ok(());
    }
    println!(rt; "{name}: a byte past those used was changed")
}

// What a replay answered, and what it left in both buffers.
pub(crate) fn replayed(
    rt: &HostRuntime,
    case: &str,
    done: &Replay,
    printed: &[u8],
    logged: &[u8],
) -> io::Result<()> {
    numbers(rt, case, done)?;
    answers(rt, printed, done.answers)?;
    log(rt, logged, done.log)?;
    rest(rt, "answers", printed, done.answers)?;
    rest(rt, "log", logged, done.log)
}
