//! The relaxation, round by round.
ghost use Rattle.std.specs.Prelude.{◌≡◌, IfOk};
ghost use Rattle.slab_columns.specs.Pool.{HasGrown};
ghost use Rattle.slab_relax.specs.AtNodes.{RefutesAt, IsCoverAt, HasLeastLossAt};
ghost use Rattle.slab_relax.specs.Tallies.{AreNoLess, HasCause};
ghost use Rattle.slab_relax.specs.Rounds.{IfRefuted, IfCovered, OnCounted};

use crate::restricted::Restricted;
use crate::round::Round;
use crate::{Node, Relaxed, Tally};
use slab_columns::Pool;
use std::alloc::{AllocError, Global};

/// Solves the relaxation of a node, column by column: each round solves the master over the columns of the pool that agree
/// with the decisions, and where that has no cover, the column that its prices leave dearest joins the pool. Of the covers
/// over the columns that are there it gives one of least loss, unless a counter rises. The pool may hold any columns of the
/// mill.
///
/// The only error is want of memory: the pool may have gained columns, and the counters may have risen.
pub fn relax(
    alloc: Global,
    node: &Node<'_>,
    pool: &mut Pool,
    tally: &mut Tally,
) -> Result<Relaxed, AllocError>
    requires { pool.old.mill ≡ node.now.mill.now }
    ensures refuted { IfOk result (λ r. IfRefuted r (RefutesAt node.now)) }
    ensures covered { IfOk result (λ r. IfCovered r (IsCoverAt node.now pool.new.columns)) }
    ensures counted { IfOk result (λ r. OnCounted r (HasCause tally.old tally.new)) }
    ensures least { (HasCause tally.old tally.new → ⊥)
        → IfOk result (λ r. IfCovered r (HasLeastLossAt node.now pool.new.columns)) }
    ensures counters { AreNoLess tally.old tally.new }
    ensures grown { HasGrown pool.old pool.new }
{
    let mut restricted = Restricted::new(alloc, node, pool)?;
    restricted.hint(alloc, pool)?;
    'rounds: loop {
        match restricted.one_round(alloc, node, pool, tally)? {
            Round::Grew => {}
            Round::Refuted(prices) => {
                restricted.note(alloc, node, pool)?;
                return Ok(Relaxed::Refuted(prices));
            }
            Round::Met(multipliers) => {
                let relaxed = restricted.least_cover(alloc, node, pool, &multipliers, tally)?;
                restricted.note(alloc, node, pool)?;
                return Ok(relaxed);
            }
            Round::Counted => return Ok(Relaxed::Counted),
        }
    }
}
