ghost use Rattle.std.specs.Prelude.{ℕ, ◌≡◌, ◌≤◌, ◌<◌, ◌++◌, ◌∷◌, [], length, vec_len, All, OnOk, OnErr, IfOk};
ghost use Rattle.std.specs.Borrow.{sem};
ghost use Rattle.slab_master.specs.Given.{AreRows, IsColumn, IsGiven, IsSmall};
ghost use Rattle.slab_master.specs.Least.{AreCosts};
ghost use Rattle.slab_master.specs.StallCounts.{RoseAtMost};
ghost use Rattle.slab_master.specs.Outcomes.{OutcomeHolds, stalls_after, LeastHolds, stalls_after_least};

use crate::given::Sense;
use crate::likely::write_likely;
use crate::outcome::{Answer, Ended, Least, Outcome};
use crate::problem::{Aim, Problem};
use crate::search::{Basis, WholeRow};
use crate::stalls::Stalls;
use crate::turns::solve_over;
use slab_frac::{Frac, Wides};
use std::alloc::{AllocError, Global};
use std::marker::Model;

/// Rows with their right sides, the columns given so far, and a working row for each row.
#[derive(Drop)]
pub struct Master {
    rows: Vec<(Sense, i64)>,
    columns: Vec<Vec<(u16, i64)>>,
    working: Vec<WholeRow>,
    basis: Basis,

    // Room for the working row that is lent.
    lent: Vec<Frac>,

    // The columns that were basic at the end of the solve before, or that were hinted since.
    likely: Vec<usize>,
}

impl Model for Master {
    ghost use Rattle.std.specs.Prelude.{◌≡◌, ◌<◌, vec_len, All};
    ghost use Rattle.slab_master.specs.Given.{Given, IsGiven, columns_of};

    ghost Value = { Given };

    ghost view = { λ m. record { rows = m.rows.items; columns = columns_of m.columns.items } };

    ghost invariant = { λ m. IsGiven (record { rows = m.rows.items; columns = columns_of m.columns.items }) × (vec_len m.working ≡ vec_len m.rows) × All (λ j. j < vec_len m.columns) m.likely.items };
}

// So many empty rows.
fn empty_rows(alloc: Global, count: usize) -> Result<Vec<WholeRow>, AllocError>
    ensures { IfOk result (λ v. vec_len v ≡ count) }
{
    let mut rows = Vec::new(alloc);
    for _row in 0..count {
        rows.push(WholeRow::new(alloc))?;
    }
    Ok(rows)
}

impl Master {
    ghost use Rattle.slab_master.specs.Lending.{LendsWorkingRow};
    ghost use Rattle.slab_master.specs.Problems.{EndedAs, stalls_after_end};

    /// A master with these rows and no column. The right sides are of absolute value at most 2^40.
    pub fn new(alloc: Global, rows: &[(Sense, i64)]) -> Result<Master, AllocError>
        requires { AreRows rows.now }
        ensures { IfOk result (λ m. m ≡ record { rows = rows.now; columns = [] }) }
    {
        Ok(Master {
            rows: Vec::from_slice(alloc, rows)?,
            columns: Vec::new(alloc),
            working: empty_rows(alloc, rows.len())?,
            basis: Basis::new(alloc),
            lent: Vec::with_capacity(alloc, rows.len().saturating_add(1))?,
            likely: Vec::with_capacity(alloc, rows.len())?,
        })
    }

    /// Appends a column. Its entries name rows below the number of rows, and are of absolute value at most 2^40; a row
    /// that is named twice has the sum of its entries. After an error the master is as before.
    pub fn add_column(&mut self, alloc: Global, entries: &[(u16, i64)]) -> Result<(), AllocError>
        requires { IsColumn (length self.old.rows) entries.now }
        ensures ok { OnOk result (self.new ≡ record self.old { columns = self.old.columns ++ entries.now ∷ [] }) }
        ensures err { OnErr result (self.new ≡ self.old) }
    {
        let entries = Vec::from_slice(alloc, entries)?;
        self.columns.push(entries)?;
        Ok(())
    }

    /// Says which given columns are likely basic, so that the search for a basis begins with them where it begins anew. It
    /// changes no claim; a number past the columns is passed over, and so are more columns than there are rows.
    pub fn hint(&mut self, columns: &[usize])
        ensures { self.new ≡ self.old }
    {
        write_likely(&mut self.likely, columns, self.columns.len());
    }

    /// The columns that were basic at the end of the solve before, or that were hinted since.
    pub fn basics(&self) -> &[usize]
        ensures { All (λ j. j < length self.now.columns) result.now }
    {
        self.likely.as_slice()
    }

    // Solves for a goal, and notes which columns are basic then.
    fn run(
        &mut self,
        alloc: Global,
        costs: &[i64],
        goal: Aim,
        wides: &mut Wides,
        stalls: &mut Stalls,
    ) -> Result<Ended, AllocError>
        requires small { All IsSmall costs.now }
        requires priced { goal ≡ Aim.Lessen → length costs.now ≡ length self.old.columns }
        ensures holds { IfOk result (EndedAs self.old costs.now goal wides.old wides.new stalls.old stalls.new) }
        ensures given { self.new ≡ self.old }
        ensures wides_grow { wides.old ≤ wides.new }
        ensures pivots { RoseAtMost 20000 stalls.old.pivots stalls.new.pivots }
        ensures stalls { IfOk result (λ e. stalls.new.stalls ≡ stalls_after_end e stalls.old.stalls) }
        ensures err { OnErr result (stalls.new.stalls ≡ stalls.old.stalls) }
    {
        let problem = Problem {
            rows: &self.rows,
            columns: &self.columns,
            costs,
            goal,
            likely: &self.likely,
        };
        stalls.add_solve();
        let ended = solve_over(
            alloc,
            &problem,
            &mut self.working,
            &mut self.basis,
            wides,
            stalls,
        )?;
        self.basis.note(self.columns.len(), &mut self.likely);
        Ok(ended)
    }

    /// Finds multipliers for the given columns that meet every row, or prices that show that there are none. It goes on
    /// from where the solve before ended; what stands in the working rows isn't told. `Wide` comes only where `wides` rose,
    /// `Stalled` only where this call made 20,000 pivots without an answer; exactly that raises the count of `stalls`.
    /// The rows and the columns are as before after each outcome, and after an error too.
    pub fn solve(
        &mut self,
        alloc: Global,
        wides: &mut Wides,
        stalls: &mut Stalls,
    ) -> Result<Outcome, AllocError>
        ensures holds { IfOk result (λ o. OutcomeHolds self.old wides.old wides.new stalls.old stalls.new o) }
        ensures given { self.new ≡ self.old }
        ensures wides_grow { wides.old ≤ wides.new }
        ensures pivots { RoseAtMost 20000 stalls.old.pivots stalls.new.pivots }
        ensures stalls { IfOk result (λ o. stalls.new.stalls ≡ stalls_after o stalls.old.stalls) }
        ensures err { OnErr result (stalls.new.stalls ≡ stalls.old.stalls) }
    {
        match self.run(alloc, &[], Aim::Meet, wides, stalls)? {
            Ended::Answered(Answer::Meets(spread)) => Ok(Outcome::Spread(spread)),
            Ended::Answered(Answer::Best { x, y: _ }) => Ok(Outcome::Spread(x)),
            Ended::Answered(Answer::Refutes(prices)) => Ok(Outcome::Prices(prices)),
            Ended::LeftRange => Ok(Outcome::Wide),
            Ended::GaveUp => Ok(Outcome::Stalled),
        }
    }

    /// Finds multipliers of least cost, with prices of the rows that show that none cost less, or prices that show that no
    /// multipliers meet every row. Each given column has a cost, 0 to 2^40. It goes on from where the solve before ended, as
    /// `solve` does, and `Wide`, `Stalled` and the counts are as there. The rows and the columns are as before after each
    /// outcome, and after an error too.
    pub fn solve_least(
        &mut self,
        alloc: Global,
        costs: &[i64],
        wides: &mut Wides,
        stalls: &mut Stalls,
    ) -> Result<Least, AllocError>
        requires { AreCosts (length self.old.columns) costs.now }
        ensures holds { IfOk result (λ o. LeastHolds self.old costs.now wides.old wides.new stalls.old stalls.new o) }
        ensures given { self.new ≡ self.old }
        ensures wides_grow { wides.old ≤ wides.new }
        ensures pivots { RoseAtMost 20000 stalls.old.pivots stalls.new.pivots }
        ensures stalls { IfOk result (λ o. stalls.new.stalls ≡ stalls_after_least o stalls.old.stalls) }
        ensures err { OnErr result (stalls.new.stalls ≡ stalls.old.stalls) }
    {
        match self.run(alloc, costs, Aim::Lessen, wides, stalls)? {
            Ended::Answered(Answer::Meets(_spread)) => unreachable!(),
            Ended::Answered(Answer::Best { x, y }) => Ok(Least::Best { x, y }),
            Ended::Answered(Answer::Refutes(prices)) => Ok(Least::Prices(prices)),
            Ended::LeftRange => Ok(Least::Wide),
            Ended::GaveUp => Ok(Least::Stalled),
        }
    }

    /// Lends one working row for writing, which is empty before the first solve. What was given stays, and the next solve
    /// makes its working rows anew.
    pub fn row_mut(&mut self, i: usize) -> &mut [Frac]
        requires { i < length self.old.rows }
        ensures* { sem 𝓛 (LendsWorkingRow self.entry result) }
    {
        self.basis.set_standing(false);
        self.working[i].write_fractions(&mut self.lent);
        self.lent.as_mut_slice()
    }
}
