//! The cover of least loss.
ghost use Rattle.std.specs.Prelude.{◌≡◌, ◌<◌, IfOk, length, pos};
ghost use Rattle.mill_model.specs.Columns.{loss_of};
ghost use Rattle.slab_master.specs.Given.{IsSmall};
ghost use Rattle.slab_master.specs.Least.{AreCosts};
ghost use Rattle.slab_master.specs.Spread.{IsSpread};
ghost use Rattle.slab_relax.specs.PoolCovers.{column_at};
ghost use Rattle.slab_relax.specs.AtNodes.{IsCoverAt, HasLeastLossAt};
ghost use Rattle.slab_relax.specs.Masters.{IsRestricted, losses_at};
ghost use Rattle.slab_relax.specs.Rounds.{IfCovered, IsCovered};
ghost use Rattle.slab_relax.specs.Tallies.{AreNoLess, HasCause};

use crate::restricted::Restricted;
use crate::{Node, Relaxed, Tally};
use slab_columns::{ColId, Pool};
use slab_master::{FracList, Least};
use std::alloc::{AllocError, Global};

// What a column of the pool loses.
fn loss(node: &Node<'_>, pool: &Pool, id: ColId) -> i64
    requires mill { pool.now.mill ≡ node.now.mill.now }
    requires within { id.0 < length pool.now.columns }
    ensures value { result ≡ pos (loss_of node.now.mill.now (column_at pool.now.columns id)) }
    ensures small { IsSmall result }
{
    let column = pool.column(id);
    i64::from(node.mill.loss_of(column.kind, column.orders))
}

impl Restricted {
    // What each column of the master loses.
    fn losses(&self, alloc: Global, node: &Node<'_>, pool: &Pool) -> Result<Vec<i64>, AllocError>
        requires mill { pool.now.mill ≡ node.now.mill.now }
        requires restricted { IsRestricted node.now pool.now.columns self.now }
        ensures value { IfOk result (λ ls. ls.items ≡ losses_at node.now pool.now.columns) }
        ensures costs { IfOk result (λ ls. AreCosts (length self.now.master.columns) ls.items) }
    {
        let mut losses = Vec::with_capacity(alloc, self.ids.len())?;
        for id in &self.ids {
            losses.push(loss(node, pool, *id))?;
        }
        Ok(losses)
    }

    // The cover of least loss, where a second solve finds it, else that of the multipliers that the first one found: it's always
    // a cover.
    pub(crate) fn least_cover(
        &mut self,
        alloc: Global,
        node: &Node<'_>,
        pool: &Pool,
        found: &FracList,
        tally: &mut Tally,
    ) -> Result<Relaxed, AllocError>
        requires mill { pool.now.mill ≡ node.now.mill.now }
        requires restricted { IsRestricted node.now pool.now.columns self.old }
        requires spread { IsSpread self.old.master.rows self.old.master.columns found.now }
        ensures covered { IfOk result IsCovered }
        ensures covers { IfOk result (λ r. IfCovered r (IsCoverAt node.now pool.now.columns)) }
        ensures least { (HasCause tally.old tally.new → ⊥)
            → IfOk result (λ r. IfCovered r (HasLeastLossAt node.now pool.now.columns)) }
        ensures restricted { self.new ≡ self.old }
        ensures counters { AreNoLess tally.old tally.new }
    {
        // It tells that a pool's columns are legal.
        let _legal = pool.len();
        let losses = self.losses(alloc, node, pool)?;
        let solved = self
            .master
            .solve_least(alloc, &losses, &mut tally.wides, &mut tally.stalls)?;
        match solved {
            Least::Best { x, y: _y } => {
                let lesser = self.cover(alloc, node, pool, x.list())?;
                Ok(Relaxed::Covered(lesser))
            }
            Least::Prices(_prices) => unreachable!(),
            Least::Wide => self.covered(alloc, node, pool, found),
            Least::Stalled => self.covered(alloc, node, pool, found),
        }
    }

    // The cover of multipliers that meet every row, as an answer.
    fn covered(
        &self,
        alloc: Global,
        node: &Node<'_>,
        pool: &Pool,
        found: &FracList,
    ) -> Result<Relaxed, AllocError>
        requires mill { pool.now.mill ≡ node.now.mill.now }
        requires restricted { IsRestricted node.now pool.now.columns self.now }
        requires spread { IsSpread self.now.master.rows self.now.master.columns found.now }
        ensures covered { IfOk result IsCovered }
        ensures covers { IfOk result (λ r. IfCovered r (IsCoverAt node.now pool.now.columns)) }
    {
        let cover = self.cover(alloc, node, pool, found.list())?;
        Ok(Relaxed::Covered(cover))
    }
}
