//! Throw-away dives: a cover's large columns are decided one after another, in the hope of a plan.

ghost use Rattle.std.specs.Prelude.{◌≡◌, IfOk, IfSome};
ghost use Rattle.slab_relax.specs.Tallies.{AreNoLess};
ghost use Rattle.slab_node.specs.Turns.{IsNode};
ghost use Rattle.slab_repack.specs.FoundPlans.{IsFoundPlan};
ghost use Rattle.slab_tree.specs.Trails.{HasExtentOf};

use crate::records::ONE;
use crate::shares::ranked;
use crate::trail::Trail;
use crate::workplace::Workplace;
use mill_model::{Ask, Limits, Mill, Plan};
use slab_columns::Pool;
use slab_decide::Decisions;
use slab_node::{Cover, Tally, Turned, turn};
use std::alloc::{AllocError, Global};

// A dive takes at most so many turns.
const MOST_TURNS: u32 = 300;

// After each turn it decides at most so many columns: those with at least this share, or else the largest.
const MOST_COLUMNS: usize = 8;

const LARGE: u32 = ONE / 4 * 3;

// A dive from a node whose decisions are the path. It answers a plan within the limits, or none, and leaves other decisions.
pub(crate) fn dive(
    alloc: Global,
    place: &mut Workplace<'_>,
    path: &[(Ask, bool)],
    cover: &Cover,
    limits: Limits,
    pool: &mut Pool,
    tally: &mut Tally,
) -> Result<Option<Plan>, AllocError>
    requires { IsNode place.old.mill.now place.old.table.now place.old.decisions limits pool.old }
    ensures found { IfOk result (λ found. IfSome found (IsFoundPlan place.old.mill.now limits)) }
    ensures counters { AreNoLess tally.old tally.new }
    ensures pool { pool.new.mill ≡ place.old.mill.now }
    ensures mill { place.new.mill.now ≡ place.old.mill.now }
{
    let mill = place.mill;
    let mut trail = Trail::new(alloc, path)?;
    decide_columns(alloc, mill, &mut place.decisions, pool, cover, &mut trail)?;
    for _ in 0..MOST_TURNS {
        match turn(
            alloc,
            mill,
            place.table,
            &place.decisions,
            limits,
            pool,
            tally,
        )? {
            Turned::InBox(plan) => return Ok(Some(plan)),
            Turned::Spread(cover, ask) => {
                if !decide_columns(alloc, mill, &mut place.decisions, pool, &cover, &mut trail)? {
                    trail.decide_ask(mill, &mut place.decisions, ask)?;
                }
            }
            Turned::Refuted(_) => {
                if !trail.reverse(mill, &mut place.decisions)? {
                    return Ok(None);
                }
            }
            Turned::Bare(_) => return Ok(None),
        }
    }
    Ok(None)
}

// Decides the large columns of a cover that aren't decided yet. It answers whether there was one.
fn decide_columns(
    alloc: Global,
    mill: &Mill,
    decisions: &mut Decisions,
    pool: &Pool,
    cover: &Cover,
    trail: &mut Trail,
) -> Result<bool, AllocError>
    requires { HasExtentOf mill.now decisions.old }
    ensures { HasExtentOf mill.now decisions.new }
{
    let mut decided = 0;
    for (share, id) in ranked(alloc, cover)? {
        if decided >= MOST_COLUMNS || (decided > 0 && share < LARGE) {
            break;
        }
        if usize::from(id.0) >= pool.len() {
            continue;
        }
        let column = pool.column(id);
        if trail.decide_column(mill, decisions, column.kind, column.orders)? {
            decided += 1;
        }
    }
    Ok(decided > 0)
}
