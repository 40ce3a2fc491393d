//! One round of the relaxation.
ghost use Rattle.std.specs.Prelude.{◌≡◌, ◌≤◌, ◌<◌, ◌+◌, IfOk, OnOk, Ok, true, false, length, Contains};
ghost use Rattle.mill_model.specs.Columns.{IsLegalColumn};
ghost use Rattle.mill_model.specs.Decisions.{column_agrees};
ghost use Rattle.slab_counter.specs.Counter.{Rose};
ghost use Rattle.slab_price.specs.Excess.{column_of as found_column};
ghost use Rattle.slab_columns.specs.Pool.{IsPool, HasGrown};
ghost use Rattle.slab_relax.specs.Masters.{IsRestricted};
ghost use Rattle.slab_relax.specs.Rounds.{RoundHolds};
ghost use Rattle.slab_relax.specs.Tallies.{AreNoLess};

use crate::restricted::Restricted;
use crate::{Node, Tally};
use mill_model::Prices;
use slab_columns::{AddError, Fulls, Pool};
use slab_master::{FracList, Outcome};
use slab_price::{Found, worst};
use std::alloc::{AllocError, Global};

/// What one round found.
#[derive(Drop)]
pub(crate) enum Round {
    /// These prices refute the limits under the decisions.
    Refuted(Prices),

    /// Multipliers of the master's columns that meet every row.
    Met(FracList),

    /// The pool and the master have a column more.
    Grew,

    /// One of the three counters rose, or stands at its last value.
    Counted,
}

impl Restricted {
    // Adds a column that the pool lacks; false where the pool is full.
    fn widen(
        &mut self,
        alloc: Global,
        node: &Node<'_>,
        found: &Found,
        pool: &mut Pool,
        fulls: &mut Fulls,
    ) -> Result<bool, AllocError>
        requires mill { pool.old.mill ≡ node.now.mill.now }
        requires restricted { IsRestricted node.now pool.old.columns self.old }
        requires legal { IsLegalColumn node.now.mill.now (found_column found.now) }
        requires agrees { column_agrees node.now.decisions.now.list (found_column found.now) ≡ true }
        requires stranger { ¬ Contains pool.old.columns (found_column found.now) }
        ensures grew { result ≡ Ok true → length pool.new.columns ≡ length pool.old.columns + 1 }
        ensures full { result ≡ Ok false → Rose fulls.old fulls.new }
        ensures restricted { OnOk result (IsRestricted node.now pool.new.columns self.new) }
        ensures grown { HasGrown pool.old pool.new }
        ensures never_falls { fulls.old ≤ fulls.new }
    {
        match pool.add(alloc, found.kind(), found.orders(), fulls) {
            Ok(id) => {
                self.put(alloc, node, id, found.kind(), found.orders())?;
                Ok(true)
            }
            Err(AddError::Full) => Ok(false),
            Err(AddError::Memory) => Err(AllocError),
        }
    }

    // The master is solved, its prices are scaled, and the column that exceeds them most joins the pool and the master.
    pub(crate) fn one_round(
        &mut self,
        alloc: Global,
        node: &Node<'_>,
        pool: &mut Pool,
        tally: &mut Tally,
    ) -> Result<Round, AllocError>
        requires mill { pool.old.mill ≡ node.now.mill.now }
        requires restricted { IsRestricted node.now pool.old.columns self.old }
        ensures holds { IfOk result
            (RoundHolds node.now self.new.master pool.old pool.new tally.old tally.new) }
        ensures restricted { OnOk result (IsRestricted node.now pool.new.columns self.new) }
        ensures grown { HasGrown pool.old pool.new }
        ensures pool { IsPool pool.new }
        ensures counters { AreNoLess tally.old tally.new }
    {
        // This and `_after` tell what holds of every pool.
        let _before = pool.len();
        let solved = self
            .master
            .solve(alloc, &mut tally.wides, &mut tally.stalls)?;
        let list = match solved {
            Outcome::Spread(spread) => return Ok(Round::Met(spread)),
            Outcome::Wide => return Ok(Round::Counted),
            Outcome::Stalled => return Ok(Round::Counted),
            Outcome::Prices(list) => list,
        };
        let scaled = self.prices(alloc, node.mill, node.limits, list.list(), &mut tally.wides)?;
        let prices = match scaled {
            Some(prices) => prices,
            None => return Ok(Round::Counted),
        };
        let found = match worst(alloc, node.mill, node.table, node.decisions, &prices)? {
            Some(found) => found,
            None => return Ok(Round::Refuted(prices)),
        };
        let answer = self.widen(alloc, node, &found, pool, &mut tally.fulls);
        let _after = pool.len();
        if answer? {
            return Ok(Round::Grew);
        }
        Ok(Round::Counted)
    }
}
