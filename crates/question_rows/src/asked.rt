//! One question, run to its end.

ghost use Rattle.std.specs.Prelude.{◌≡◌, IfSome};
ghost use Rattle.mill_model.specs.Limits.{number_of};
ghost use Rattle.mill_model.specs.Starts.{IsStart};
ghost use Rattle.slab_master.specs.Given.{IsSmall};

use loss_table::LossTable;
use mill_model::{Mill, OpenTree, Plan, Steps};
use slab_columns::Pool;
use slab_node::Tally;
use slab_tree::{Ended, Nodes, Tree};
use std::alloc::{AllocError, Global};

/// What a question came to.
#[derive(Drop)]
pub enum Asked {
    /// The plan of least loss, and the tightened tree.
    Least(Plan, Steps),
    /// The tightened tree.
    NoPlan(Steps),
    /// The open tree.
    Budget(OpenTree),
}

/// Asks for the plan of least loss within a count limit. Some plan within it may be handed in.
pub fn ask(
    alloc: Global,
    mill: &Mill,
    table: &LossTable,
    pool: &mut Pool,
    count: Option<i64>,
    best: Option<Plan>,
    nodes: &mut Nodes,
    tally: &mut Tally,
) -> Result<Asked, AllocError>
    requires count { IsSmall (number_of count) }
    requires best { IfSome best (IsStart mill.now count) }
    requires sizes { table.now ≡ mill.now.sizes }
    requires pool { pool.old.mill ≡ mill.now }
    ensures pool { pool.new.mill ≡ mill.now }
{
    let _before = nodes.opened();
    let _limit = nodes.limit();
    let mut tree = Tree::question(alloc, mill, count, best)?;
    match tree.run(alloc, mill, table, pool, nodes, tally)? {
        Ended::Least(plan) => {
            let tight = tree.tighten(alloc, mill, table, pool, nodes, tally)?;
            Ok(Asked::Least(plan, tight.steps(alloc)?))
        }
        Ended::NoPlan => {
            let tight = tree.tighten(alloc, mill, table, pool, nodes, tally)?;
            Ok(Asked::NoPlan(tight.steps(alloc)?))
        }
        Ended::Budget => Ok(Asked::Budget(tree.open_tree(alloc)?)),
    }
}
