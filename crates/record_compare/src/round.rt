// Rounds: in each, rows are given to a new record, one after another.
ghost use Rattle.std.specs.Prelude.{◌<◌, ◌≤◌};

use crate::given::{Figured, Given};
use crate::ranks::{plain_verdict, rank_with};
use crate::rows::{NOBODY, Row, generated};
use crate::tally::Tally;
use checks::CheckedRow;
use field::{Element, Field};
use record::{Admission, Judgement, Record, Room};
use refusal::{Member, Refusal};
use std::alloc::{AllocError, Global};
use std::{array, io};
use trials::{Dice, figure};

// Rows are generated over `reach` of the members, which each round places anew.
#[derive(Clone, Copy)]
pub(crate) struct Play {
    pub members: u32,
    pub reach: u32,
    pub rounds: u32,
    pub rows: u32,
    ghost some: { 0 < reach },
    ghost within: { (reach ≤ members) × (members ≤ 64) },
}

// Whether a witness of the record has its element at its member, and fits all the rows given.
fn witness_fits<F: Field>(rec: &Record<F>, given: &Given, member: usize, element: Element) -> bool
    requires member { member < 64 }
{
    let mut table = NOBODY;
    rec.witness(Member(member), element, &mut table[..rec.count()])
        .is_ok()
        && table[member] == element
        && given.fits::<F>(&table)
}

fn judge<F: Field>(rec: &Record<F>, row: &[Element]) -> Result<Judgement, Refusal> {
    Ok(rec.judge(&CheckedRow::new(row, rec.count())?))
}

fn admit<F: Field>(
    rec: &mut Record<F>,
    row: &[Element],
    figure: Element,
) -> Result<Admission, Refusal> {
    rec.admit(&CheckedRow::new(row, rec.count())?, figure)
}

// Gives the record one row; whether all that it answers is as it should be.
fn give<F: Field>(
    heap: Global,
    rec: &mut Record<F>,
    given: &mut Given,
    figured: Figured,
    tally: &mut Tally,
) -> Result<bool, AllocError> {
    let Figured { row, figure } = figured;
    let n = rec.count();
    let expected = plain_verdict::<F>(heap, given.rows(), &row, n)?;
    let judged = judge(rec, &row[..n]);
    let admitted = admit(rec, &row[..n], figure);
    given.take(expected, figured)?;
    let agree = judged == expected.judgement(figure)
        && admitted == expected.admission()
        && rec.row_count() == rank_with::<F>(heap, given.rows(), &[])?;
    tally.row(expected, agree);
    Ok(agree)
}

fn round<F: Field>(
    rt: &HostRuntime,
    dice: &mut Dice,
    rec: &mut Record<F>,
    play: Play,
    tally: &mut Tally,
) -> io::Result<()> {
    let start = dice.roll(play.members - play.reach + 1);
    let table: Row = array::from_fn(|_| dice.element::<F>());
    let mut given = Given::nothing(rt.alloc());
    for k in 0..play.rows {
        let row = if dice.roll(4) == 0 {
            given.mixed::<F>(dice)
        } else {
            generated::<F>(dice, start, play.reach)
        };
        let figured = Figured {
            row,
            figure: figure::<F>(&row, &table),
        };
        if !give(rt.alloc(), rec, &mut given, figured, tally)? {
            println!(rt; "row {k} of a round: the two differ")?;
        }
        let member = dice.roll(play.members) as usize;
        if witness_fits(rec, &given, member, dice.element::<F>()) {
            tally.witness();
        }
    }
    Ok(())
}

// All the rounds over one field, and what came of them.
pub(crate) fn all<F: Field>(rt: &HostRuntime, field: &str, play: Play) -> io::Result<()> {
    let mut dice = Dice::new(u64::from(F::kind()));
    let mut tally = Tally::default();
    for _ in 0..play.rounds {
        let mut rec = Record::<F>::new(Room::new(rt.alloc())?, play.members as usize);
        round(rt, &mut dice, &mut rec, play, &mut tally)?;
    }
    tally.show(rt, field, play.members as usize)
}
