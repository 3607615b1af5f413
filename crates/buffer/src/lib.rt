// Writing to the front of a lent buffer: bytes, and numbers in decimal.
#![tactic(auto)]

ghost use Rattle.std.specs.Prelude.{◌≡◌, ◌<◌, ◌≤◌, length, decimal};
ghost use Rattle.buffer.specs.Buffers.{Writes};

use itoa::write_digits;

// Writes the bytes to the front of `out`, and answers how many. Where there is too little room, the answer is none and
// nothing is written.
pub fn put_bytes(bytes: &[u8], out: &mut [u8]) -> Option<usize>
    ensures { Writes bytes.now out.old out.new result }
{
    let (front, _) = out.split_at_mut_checked(bytes.len())?;
    front.copy_from_slice(bytes);
    Some(bytes.len())
}

// How many digits the value has in decimal.
pub fn digit_count(value: usize) -> usize
    ensures is { result ≡ length (decimal value) }
    ensures few { result ≤ 20 }
    ensures five { value < 100000 → result ≤ 5 }
{
    value.max(1).ilog10() as usize + 1
}

// Writes the value in decimal to the front of `out`, and answers how many digits it has. Where there is too little
// room, the answer is none and nothing is written.
pub fn put_decimal(value: usize, out: &mut [u8]) -> Option<usize>
    ensures { Writes (decimal value) out.old out.new result }
{
    let count = digit_count(value);
    let (front, _) = out.split_at_mut_checked(count)?;
    write_digits(value as u64, front, count);
    Some(count)
}
