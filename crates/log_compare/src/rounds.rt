// Rounds: in each a log is made, read back, and damaged a few times.
ghost use Rattle.std.specs.Prelude.{◌≤◌, length};

use crate::compare::{Outcome, damaged, read_back};
use crate::made::{Made, generated};
use crate::tally::Tally;
use field::{Element, Field};
use record::{Record, Room};
use std::{array, io};
use trials::Dice;

// A log of at most 12 rows.
fn made<F: Field>(dice: &mut Dice, rec: &mut Record<F>) -> Made {
    let n = rec.count();
    let table: [Element; 64] = array::from_fn(|_| dice.element::<F>());
    let mut log = Made::header::<F>(n);
    for _ in 0..12 {
        let row = generated::<F>(dice);
        log.give(rec, &row[..n], &table[..n]);
    }
    log
}

// Turns one bit of one byte.
fn turn(dice: &mut Dice, log: &mut [u8])
    requires { length log.old ≤ 2048 }
{
    let at = dice.roll(log.len() as u32) as usize;
    if let Some(byte) = log.get_mut(at) {
        *byte ^= 1 << dice.roll(8);
    }
}

fn round<F: Field>(
    rt: &HostRuntime,
    dice: &mut Dice,
    n: usize,
    tally: &mut Tally,
) -> io::Result<()> {
    let mut rec = Record::<F>::new(Room::new(rt.alloc())?, n);
    let made = made(dice, &mut rec);
    tally.log(made.rows, read_back(rt.alloc(), &rec, made.log(), n)?);
    for _ in 0..20 {
        let mut log = made.log().to_vec(rt.alloc())?;
        turn(dice, log.as_mut_slice());
        tally.damaged(damaged::<F>(rt.alloc(), log.as_slice(), n)?);
    }
    Ok(())
}

// All the rounds over one field and count, and what came of them.
pub(crate) fn all<F: Field>(rt: &HostRuntime, field: &str, n: usize) -> io::Result<()> {
    let mut dice = Dice::new(u64::from(F::kind()));
    let mut tally = Tally::default();
    for _ in 0..25 {
        round::<F>(rt, &mut dice, n, &mut tally)?;
    }
    tally.show(rt, field, n)
}
