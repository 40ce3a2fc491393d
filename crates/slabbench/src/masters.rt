//! Restricted masters that a search met, solved again. A file tells them by whole numbers: `1 ROWS (SENSE RIGHT)..` begins
//! a master (sense 1 is Equal, 0 AtMost), `2 COUNT (ROW ENTRY)..` adds a column, `5 COUNT COLUMN..` is a hint and is passed
//! over, and `3 OUTCOME` solves. Another number ends it.

ghost use Rattle.std.specs.Prelude.{length, IfOk};
ghost use Rattle.slab_master.specs.Given.{AreRows, IsColumn, IsSmall};

use crate::told::Told;
use slab_counter::raised;
use slab_frac::Wides;
use slab_master::{Master, Outcome, Sense, Stalls};
use std::alloc::{AllocError, Global};

/// What the solves did, each counted.
#[derive(Drop)]
pub struct Solved {
    pub spreads: u64,
    pub prices: u64,
    pub wides: Wides,
    pub stalls: Stalls,
}

/// Solves the masters that a file tells, so often.
pub fn solve_masters(alloc: Global, numbers: &[i64], times: u16) -> Result<Solved, AllocError> {
    let mut solved = Solved {
        spreads: 0,
        prices: 0,
        wides: Wides::new(),
        stalls: Stalls::new(),
    };
    for _ in 0..times {
        solve_file(alloc, numbers, &mut solved)?;
    }
    Ok(solved)
}

fn solve_file(alloc: Global, numbers: &[i64], solved: &mut Solved) -> Result<(), AllocError> {
    let mut told = Told::new(numbers);
    let mut step = told.number();
    for _ in 0..numbers.len() {
        if step != 1 {
            return Ok(());
        }
        step = solve_master(alloc, numbers.len(), &mut told, solved)?;
    }
    Ok(())
}

/// Makes one master of at most so many steps, and solves it where the file does; then the step that is none of its own.
fn solve_master(
    alloc: Global,
    most: usize,
    told: &mut Told<'_>,
    solved: &mut Solved,
) -> Result<i64, AllocError> {
    let rows = read_rows(alloc, told)?;
    let count = rows.len();
    let mut master = Master::new(alloc, &rows)?;
    'steps: for _ in 0..most {
        match told.number() {
            2 => {
                let column = read_column(alloc, told, count)?;
                master.add_column(alloc, &column)?;
            }
            3 => {
                told.number();
                let outcome = master.solve(alloc, &mut solved.wides, &mut solved.stalls)?;
                solved.note(outcome);
            }
            5 => skip_hint(told),
            step => return Ok(step),
        }
    }
    Ok(0)
}

impl Solved {
    fn note(&mut self, outcome: Outcome) {
        match outcome {
            Outcome::Spread(_) => self.spreads = raised(self.spreads),
            Outcome::Prices(_) => self.prices = raised(self.prices),
            Outcome::Wide | Outcome::Stalled => {}
        }
    }
}

/// A right side or an entry, brought to an absolute value of at most a billion.
fn small(told: &mut Told<'_>) -> i64
    ensures { IsSmall result }
{
    told.number().clamp(-1_000_000_000, 1_000_000_000)
}

fn read_rows(alloc: Global, told: &mut Told<'_>) -> Result<Vec<(Sense, i64)>, AllocError>
    ensures { IfOk result (λ rows. AreRows rows.items) }
{
    let mut rows = Vec::new(alloc);
    'rows: for _ in 0..told.count() {
        let sense = if told.number() == 1 {
            Sense::Equal
        } else {
            Sense::AtMost
        };
        rows.push((sense, small(told)))?;
    }
    Ok(rows)
}

/// A column over so many rows; entries that name none of them are left out.
fn read_column(
    alloc: Global,
    told: &mut Told<'_>,
    rows: usize,
) -> Result<Vec<(u16, i64)>, AllocError>
    ensures { IfOk result (λ entries. IsColumn rows entries.items) }
{
    let mut entries = Vec::new(alloc);
    'entries: for _ in 0..told.count() {
        let row = told.count();
        let entry = small(told);
        if usize::from(row) < rows {
            entries.push((row, entry))?;
        }
    }
    Ok(entries)
}

fn skip_hint(told: &mut Told<'_>) {
    for _ in 0..told.count() {
        told.number();
    }
}
