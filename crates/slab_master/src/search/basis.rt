//! The state of the search, and its steps.

ghost use Rattle.std.specs.Prelude.{ℕ, ◌≡◌, ◌<◌, ◌≤◌, All, IfOk, IfNone};
ghost use Rattle.slab_counter.specs.Counter.{Rose};
ghost use Rattle.slab_master.specs.Given.{IsSmall};

use crate::given::Sense;
use crate::likely::add_likely;
use crate::problem::{Aim, Problem};
use crate::search::basic::Basic;
use crate::search::entering::{Pricing, choose_entering};
use crate::search::leaving::leaving_row;
use crate::search::whole_row::WholeRow;
use slab_frac::{Wides, in_range};
use std::alloc::{AllocError, Global};
use std::mem;

// After so many pivots that moved nothing, and 4 more for each row, the first column or slack whose reduced cost is below 0
// enters, so that no basis comes again (Bland's rule).
const IDLE: usize = 64;

// What one step did, or what the basis shows.
pub(crate) enum Step {
    Moved,
    Meets,
    Refutes,
    Least,
    /// Nothing bounds the entering column, which exact rows never make happen.
    Lost,
    Wide,
}

// The basis of the working rows. These are its inverse: a number for each given row, and the right side. What is basic in a
// row stands in it with a 1, so a row whose right side is negative begins with its sign turned.
#[derive(Drop)]
pub(crate) struct Basis {
    // What is basic in each row.
    pub(crate) basics: Vec<Basic>,

    // The reduced costs of the unit columns, and less the value of the aim in the place of the right side.
    pub(crate) reduced: WholeRow,

    // What the reduced costs are of.
    aim: Aim,

    // The entering column by the basis, each cell over its row's denominator, with its reduced cost at the end.
    direction: Vec<i64>,

    // Room for the row that a pivot takes out, and for the places where a row that is taken off others isn't 0.
    taken: WholeRow,
    filled: Vec<usize>,

    // How many pivots in a row moved nothing.
    idle: usize,

    // Whether preferred columns enter first.
    prefers: bool,

    // Whether the working rows stand as an answer left them.
    stands: bool,
}

// What a basic variable weighs in the value of an aim.
fn weight_of(basic: Basic, aim: Aim, costs: &[i64]) -> i64
    requires { All IsSmall costs.now }
    ensures { IsSmall result }
{
    match (aim, basic) {
        (Aim::Meet, Basic::Artificial) => 1,
        (Aim::Lessen, Basic::Column(place)) if place < costs.len() => costs[place],
        _ => 0,
    }
}

// Writes the cells of a column, one for each row. None comes only where a number left its range.
fn fill_direction(
    direction: &mut [i64],
    working: &[WholeRow],
    column: &[(u16, i64)],
    wides: &mut Wides,
) -> Option<()>
    ensures grows { wides.old ≤ wides.new }
    ensures wide { IfNone result (Rose wides.old wides.new) }
{
    for (place, row) in direction.iter_mut().zip(working) {
        *place = in_range(row.product(column), wides)?;
    }
    Some(())
}

// Takes so much of the pivot row off each row that the entering column is 0 there. None comes only where a number left its
// range.
fn clear_column(
    rows: &mut [WholeRow],
    pivot: &WholeRow,
    filled: &[usize],
    direction: &[i64],
    wides: &mut Wides,
) -> Option<()>
    ensures grows { wides.old ≤ wides.new }
    ensures wide { IfNone result (Rose wides.old wides.new) }
{
    for (row, cell) in rows.iter_mut().zip(direction) {
        if *cell != 0 {
            row.subtract(pivot, filled, *cell, wides)?;
        }
    }
    Some(())
}

// Writes zeros into each row, so many.
fn clear_rows(rows: &mut [WholeRow], width: usize) -> Result<(), AllocError> {
    for row in rows.iter_mut() {
        row.clear(width)?;
    }
    Ok(())
}

// Writes unit columns and right sides into rows of zeros, and makes the first basis of slacks and artificial variables.
fn put_units(
    working: &mut [WholeRow],
    basics: &mut Vec<Basic>,
    problem: &Problem<'_>,
) -> Result<(), AllocError> {
    basics.clear();
    for (i, row) in working.iter_mut().enumerate() {
        if i < problem.rows.len() {
            let (sense, right) = problem.rows[i];
            row.put(i, if right < 0 { -1 } else { 1 });
            row.put(problem.rows.len(), right.wrapping_abs());
            basics.push(first_basic(sense, right, i))?;
        }
    }
    Ok(())
}

// What is basic in a row at the start: its slack where that isn't below 0.
fn first_basic(sense: Sense, right: i64, row: usize) -> Basic {
    if sense == Sense::AtMost && right >= 0 && row <= 65535 {
        return Basic::Slack(row as u16);
    }
    Basic::Artificial
}

impl Basis {
    // The basis of no working rows.
    pub(crate) fn new(alloc: Global) -> Basis {
        Basis {
            basics: Vec::new(alloc),
            reduced: WholeRow::new(alloc),
            aim: Aim::Meet,
            direction: Vec::new(alloc),
            taken: WholeRow::new(alloc),
            filled: Vec::new(alloc),
            idle: 0,
            prefers: false,
            stands: false,
        }
    }

    // Says whether the working rows stand as an answer left them.
    pub(crate) fn set_standing(&mut self, stands: bool) {
        self.stands = stands;
    }

    // Makes the working rows anew from the rows given. None comes only where a number left its range.
    fn start(
        &mut self,
        problem: &Problem<'_>,
        working: &mut [WholeRow],
        wides: &mut Wides,
    ) -> Result<Option<()>, AllocError>
        ensures grows { wides.old ≤ wides.new }
        ensures wide { IfOk result (λ done. IfNone done (Rose wides.old wides.new)) }
    {
        self.stands = false;
        self.idle = 0;
        let width = problem.rows.len().saturating_add(1);
        self.reduced.clear(width)?;
        self.direction.clear();
        self.direction.resize(width, 0)?;
        self.filled.clear();
        self.filled.resize(width, 0)?;
        clear_rows(working, width)?;
        put_units(working, &mut self.basics, problem)?;
        Ok(self.aim_at(Aim::Meet, problem, working, wides))
    }

    // Makes the working rows anew, with nothing preferred. None comes only where a number left its range.
    pub(crate) fn restart(
        &mut self,
        problem: &Problem<'_>,
        working: &mut [WholeRow],
        wides: &mut Wides,
    ) -> Result<Option<()>, AllocError>
        ensures grows { wides.old ≤ wides.new }
        ensures wide { IfOk result (λ done. IfNone done (Rose wides.old wides.new)) }
    {
        self.prefers = false;
        self.start(problem, working, wides)
    }

    // Goes on from the basis of the answer before where the working rows still stand so, else makes them anew, and preferred
    // columns will enter first. None comes only where a number left its range.
    pub(crate) fn begin(
        &mut self,
        problem: &Problem<'_>,
        working: &mut [WholeRow],
        wides: &mut Wides,
    ) -> Result<Option<()>, AllocError>
        ensures grows { wides.old ≤ wides.new }
        ensures wide { IfOk result (λ done. IfNone done (Rose wides.old wides.new)) }
    {
        self.prefers = !self.stands;
        if !self.stands {
            return self.start(problem, working, wides);
        }
        self.stands = false;
        self.idle = 0;
        if self.aim == Aim::Meet {
            return Ok(Some(()));
        }
        Ok(self.aim_at(Aim::Meet, problem, working, wides))
    }

    // Makes the reduced costs those of an aim. None comes only where a number left its range.
    fn aim_at(
        &mut self,
        aim: Aim,
        problem: &Problem<'_>,
        working: &[WholeRow],
        wides: &mut Wides,
    ) -> Option<()>
        ensures grows { wides.old ≤ wides.new }
        ensures wide { IfNone result (Rose wides.old wides.new) }
    {
        self.aim = aim;
        self.reduced.fill_with_zeros();
        for (place, row) in working.iter().enumerate() {
            self.take_weight(problem, place, row, wides)?;
        }
        Some(())
    }

    // Takes a working row off the reduced costs, times what is basic there weighs. None comes only where a number left its range.
    fn take_weight(
        &mut self,
        problem: &Problem<'_>,
        place: usize,
        row: &WholeRow,
        wides: &mut Wides,
    ) -> Option<()>
        ensures grows { wides.old ≤ wides.new }
        ensures wide { IfNone result (Rose wides.old wides.new) }
    {
        let basic = *self.basics.get(place).unwrap_or(&Basic::Slack(0));
        let weight = weight_of(basic, self.aim, problem.costs);
        if weight == 0 {
            return Some(());
        }
        row.write_filled(&mut self.filled);
        let cell = in_range(self.reduced.multiple(weight), wides)?;
        self.reduced.subtract(row, &self.filled, cell, wides)
    }

    // Whether so many pivots moved nothing that the next ones go by the order of the variables.
    fn is_stuck(&self) -> bool {
        self.idle >= self.basics.len().saturating_mul(4).saturating_add(IDLE)
    }

    // What enters, if something does.
    fn choose(&self, problem: &Problem<'_>) -> Option<Basic> {
        let pricing = Pricing {
            reduced: &self.reduced,
            costs: if self.aim == Aim::Lessen {
                problem.costs
            } else {
                &[]
            },
        };
        let preferred = if self.prefers { problem.likely } else { &[] };
        choose_entering(&pricing, problem, preferred, self.is_stuck())
    }

    // Writes the cells of a column, and its reduced cost. None comes only where a number left its range.
    fn direct_along(
        &mut self,
        working: &[WholeRow],
        column: &[(u16, i64)],
        cost: i64,
        wides: &mut Wides,
    ) -> Option<()>
        ensures grows { wides.old ≤ wides.new }
        ensures wide { IfNone result (Rose wides.old wides.new) }
    {
        fill_direction(&mut self.direction, working, column, wides)?;
        let reduced = self
            .reduced
            .product(column)
            .wrapping_add(self.reduced.multiple(cost));
        let reduced = in_range(reduced, wides)?;
        if let Some(last) = self.direction.last_mut() {
            *last = reduced;
        }
        Some(())
    }

    // The same for what enters.
    fn direct(
        &mut self,
        problem: &Problem<'_>,
        working: &[WholeRow],
        enters: Basic,
        wides: &mut Wides,
    ) -> Option<()>
        ensures grows { wides.old ≤ wides.new }
        ensures wide { IfNone result (Rose wides.old wides.new) }
    {
        match enters {
            Basic::Column(place) if place < problem.columns.len() => {
                let cost = weight_of(enters, self.aim, problem.costs);
                self.direct_along(working, problem.columns[place].as_slice(), cost, wides)
            }
            Basic::Slack(row) => self.direct_along(working, &[(row, 1)], 0, wides),
            _ => Some(()),
        }
    }

    // Makes a unit column of the entering column by the row that was taken out. None comes only where a number left its
    // range.
    fn eliminate(&mut self, working: &mut [WholeRow], row: usize, wides: &mut Wides) -> Option<()>
        ensures grows { wides.old ≤ wides.new }
        ensures wide { IfNone result (Rose wides.old wides.new) }
    {
        let pivot = self.direction.get(row).copied().unwrap_or(1);
        self.taken.divide_by(pivot);
        self.taken.write_filled(&mut self.filled);
        clear_column(working, &self.taken, &self.filled, &self.direction, wides)?;
        let cost = self.direction.last().copied().unwrap_or(0);
        if cost == 0 {
            return Some(());
        }
        self.reduced
            .subtract(&self.taken, &self.filled, cost, wides)
    }

    // Exchanges a working row with the row that was taken out.
    fn exchange(&mut self, working: &mut [WholeRow], row: usize) {
        if row < working.len() {
            mem::swap(&mut working[row], &mut self.taken);
        }
    }

    // Lets what enters take the place of what is basic in a row. None comes only where a number left its range.
    fn pivot(
        &mut self,
        working: &mut [WholeRow],
        row: usize,
        enters: Basic,
        wides: &mut Wides,
    ) -> Option<()>
        ensures grows { wides.old ≤ wides.new }
        ensures wide { IfNone result (Rose wides.old wides.new) }
    {
        self.exchange(working, row);
        let done = self.eliminate(working, row, wides);
        self.exchange(working, row);
        if row < self.basics.len() {
            self.basics[row] = enters;
        }
        done
    }

    // One pivot with what enters.
    fn enter(
        &mut self,
        problem: &Problem<'_>,
        working: &mut [WholeRow],
        enters: Basic,
        wides: &mut Wides,
    ) -> Step
        ensures grows { wides.old ≤ wides.new }
        ensures wide { result ≡ Step.Wide → Rose wides.old wides.new }
    {
        if self.direct(problem, working, enters, wides).is_none() {
            return Step::Wide;
        }
        let pinned = self.aim == Aim::Lessen;
        let stuck = self.is_stuck();
        let Some(leaver) = leaving_row(working, &self.basics, &self.direction, pinned, stuck) else {
            return Step::Lost;
        };
        self.idle = if leaver.right == 0 {
            self.idle.saturating_add(1)
        } else {
            0
        };
        match self.pivot(working, leaver.row, enters, wides) {
            Some(()) => Step::Moved,
            None => Step::Wide,
        }
    }

    // One step toward the goal: a pivot, or what the basis shows where none is left to make.
    pub(crate) fn step(
        &mut self,
        problem: &Problem<'_>,
        working: &mut [WholeRow],
        wides: &mut Wides,
    ) -> Step
        ensures grows { wides.old ≤ wides.new }
        ensures wide { result ≡ Step.Wide → Rose wides.old wides.new }
    {
        if self.aim == Aim::Meet && self.reduced.right() == 0 {
            if problem.goal == Aim::Meet {
                return Step::Meets;
            }
            if self.aim_at(Aim::Lessen, problem, working, wides).is_none() {
                return Step::Wide;
            }
        }
        match self.choose(problem) {
            Some(enters) => self.enter(problem, working, enters, wides),
            None if self.aim == Aim::Lessen => Step::Least,
            None => Step::Refutes,
        }
    }

    // Writes the columns below `count` that are basic into the list, as far as its room goes.
    pub(crate) fn note(&self, count: usize, list: &mut Vec<usize>)
        ensures { All (λ j. j < count) list.new.items }
    {
        list.clear();
        for basic in &self.basics {
            if let Basic::Column(place) = basic {
                add_likely(list, *place, count);
            }
        }
    }
}
