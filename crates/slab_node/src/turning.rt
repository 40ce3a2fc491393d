ghost use Rattle.std.specs.Prelude.{◌≡◌, ◌<◌, ◌≤◌, IfOk, length};
ghost use Rattle.mill_model.specs.Assignments.{AreSettled};
ghost use Rattle.mill_model.specs.Decisions.{AreAsks};
ghost use Rattle.mill_model.specs.Plain.{IsPlainlyRefuted};
ghost use Rattle.mill_model.specs.Prices.{Refutes};
ghost use Rattle.slab_decide.specs.Decided.{AreConsistent, IsFirstOpen};
ghost use Rattle.slab_columns.specs.Pool.{HasGrown};
ghost use Rattle.slab_relax.specs.PoolCovers.{IsPoolCover, HasLeastLoss};
ghost use Rattle.slab_relax.specs.AtNodes.{RefutesAt, IsCoverAt, HasLeastLossAt};
ghost use Rattle.slab_relax.specs.Tallies.{AreNoLess, HasCause};
ghost use Rattle.slab_node.specs.AtNodes.{IsInBoxAt, IsOpenAskAt};
ghost use Rattle.slab_node.specs.FirstPrices.{IsFirstPlain, IsFirstStated};
ghost use Rattle.slab_node.specs.Turns.{most_columns, emptied, IsNode, IsInBox, IsOpenAsk, IsFirstPartial, IfRefuted, IfInBox, IfSpread, IfSplits, IfBare, IfAsks, IsRefuted, IsClosed, IsTurn};

use crate::choose::{Choice, choose};
use crate::plain::plain_prices;
use crate::settle::settle;
use crate::{Tally, Turned};
use loss_table::LossTable;
use mill_model::{Ask, Limits, Mill};
use slab_columns::Pool;
use slab_decide::Decisions;
use slab_relax::{Node, Relaxed, relax};
use std::alloc::{AllocError, Global};

// A pool of more columns is emptied before a relaxation.
const MOST_COLUMNS: usize = 4096;

// Empties a pool of too many columns.
fn make_room(pool: &mut Pool)
    ensures emptied { most_columns < length pool.old.columns → pool.new ≡ emptied pool.old }
    ensures kept { length pool.old.columns ≤ most_columns → pool.new ≡ pool.old }
{
    if pool.len() > MOST_COLUMNS {
        pool.restart();
    }
}

// The turn of a node with a question that doesn't follow.
fn turn_open(
    alloc: Global,
    node: &Node<'_>,
    undecided: Ask,
    pool: &mut Pool,
    tally: &mut Tally,
) -> Result<Turned, AllocError>
    requires mill { pool.old.mill ≡ node.now.mill.now }
    requires question { IsOpenAskAt node.now undecided }
    requires asks { AreAsks node.now.mill.now node.now.decisions.now.list }
    requires consistent { AreConsistent node.now.decisions.now.list }
    ensures refuted { IfOk result (λ t. IfRefuted t (RefutesAt node.now)) }
    ensures in_box { IfOk result (λ t. IfInBox t (IsInBoxAt node.now)) }
    ensures cover { IfOk result (λ t. IfSpread t (IsCoverAt node.now pool.new.columns)) }
    ensures cause { IfOk result (λ t. IfBare t (λ _. HasCause tally.old tally.new)) }
    ensures first { IfOk result (λ t. IfBare t (λ ask. ask ≡ undecided)) }
    ensures ask { IfOk result (λ t. IfAsks t (IsOpenAskAt node.now)) }
    ensures least { (HasCause tally.old tally.new → ⊥)
        → IfOk result (λ t. IfSpread t (HasLeastLossAt node.now pool.new.columns)) }
    ensures partial { (HasCause tally.old tally.new → ⊥)
        → IfOk result (λ t. IfSplits t (IsFirstPartial node.now.mill.now pool.new.columns)) }
    ensures counters { AreNoLess tally.old tally.new }
    ensures grown { HasGrown pool.old pool.new }
{
    let cover = match relax(alloc, node, pool, tally)? {
        Relaxed::Refuted(prices) => return Ok(Turned::Refuted(prices)),
        Relaxed::Counted => return Ok(Turned::Bare(undecided)),
        Relaxed::Covered(cover) => cover,
    };
    match choose(alloc, node, pool, &cover, undecided, &mut tally.wides)? {
        Choice::Split(ask) => Ok(Turned::Spread(cover, ask)),
        Choice::Whole(plan) => Ok(Turned::InBox(plan)),
    }
}

/// One node's turn. It answers prices that refute the limits under the decisions, a plan within them, or a fractional cover,
/// which shows that no prices refute them, with an ask to split on. Where a counter of the tally rose or stands at its last
/// value, neither prices nor a cover may come. The pool may hold any columns of the mill; columns join it, and one of more
/// than 4,096 columns is emptied before the relaxation. The pool counts the turn.
///
/// The only error is want of memory: the pool may have changed as above, and the counters may have risen.
pub fn turn(
    alloc: Global,
    mill: &Mill,
    table: &LossTable,
    decisions: &Decisions,
    limits: Limits,
    pool: &mut Pool,
    tally: &mut Tally,
) -> Result<Turned, AllocError>
    requires node { IsNode mill.now table.now decisions.now limits pool.old }

    // What each answer carries.
    ensures refuted { IfOk result (λ t. IfRefuted t (Refutes mill.now limits decisions.now.list)) }
    ensures in_box { IfOk result (λ t. IfInBox t (IsInBox mill.now limits decisions.now.list)) }
    ensures cover { IfOk result (λ t. IfSpread t
        (IsPoolCover mill.now limits decisions.now.list pool.new.columns)) }
    ensures cause { IfOk result (λ t. IfBare t (λ _. HasCause tally.old tally.new)) }
    ensures first { IfOk result (λ t. IfBare t (IsFirstOpen decisions.now)) }
    ensures ask { IfOk result (λ t. IfAsks t (IsOpenAsk mill.now decisions.now.list)) }

    // When which answer comes.
    ensures settled { AreSettled mill.now decisions.now.list → IfOk result IsClosed }
    ensures plain { IsPlainlyRefuted mill.now limits → IfOk result IsRefuted }

    // Where no relaxation is needed, the prices are the first of a list.
    ensures first_plain { IsPlainlyRefuted mill.now limits
        → IfOk result (λ t. IfRefuted t (IsFirstPlain mill.now limits)) }
    ensures first_stated { (IsPlainlyRefuted mill.now limits → ⊥)
        → AreSettled mill.now decisions.now.list
        → IfOk result (λ t. IfRefuted t (IsFirstStated mill.now limits decisions.now.list)) }

    // With no cause for less the cover has the least loss that columns of the pool can have.
    ensures least { (HasCause tally.old tally.new → ⊥)
        → IfOk result (λ t. IfSpread t
        (HasLeastLoss mill.now limits decisions.now.list pool.new.columns)) }

    // And its ask is the first that it answers in part: pairs come before puts.
    ensures partial { (HasCause tally.old tally.new → ⊥)
        → IfOk result (λ t. IfSplits t (IsFirstPartial mill.now pool.new.columns)) }

    // The same in short, for a search that doesn't keep the pool.
    ensures turned { IfOk result (IsTurn mill.now limits decisions.now.list tally.old tally.new) }

    // What a turn changes, also where memory is wanting.
    ensures counters { AreNoLess tally.old tally.new }
    ensures mill { pool.new.mill ≡ mill.now }
    ensures grown { length pool.old.columns ≤ most_columns → HasGrown pool.old pool.new }

    // Settled decisions and limits that plain prices refute need no pool.
    ensures unused { AreSettled mill.now decisions.now.list → pool.new ≡ pool.old }
    ensures untouched { IsPlainlyRefuted mill.now limits → pool.new ≡ pool.old }
{
    let node = Node {
        mill,
        table,
        decisions,
        limits,
    };
    pool.count_turn();
    if let Some(prices) = plain_prices(alloc, mill, limits)? {
        return Ok(Turned::Refuted(prices));
    }
    let Some(first) = decisions.first_open() else {
        return settle(alloc, &node);
    };
    make_room(pool);
    turn_open(alloc, &node, first, pool, tally)
}
