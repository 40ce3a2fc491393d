//! The one plan of settled decisions, or the prices that refute the limits.
ghost use Rattle.std.specs.Prelude.{IfOk};

use crate::groups::{firsts_of, slabs_of};
use crate::kinds::kinds_of;
use crate::plans::plan_by;
use mill_model::{Kind, Plan};
use slab_relax::Node;
use std::alloc::{AllocError, Global};

/// The groups of settled decisions, each known by its first order, with their slabs, and the plan of these.
#[derive(Drop)]
pub(crate) struct Settlement {
    pub heads: Vec<u16>,
    pub kinds: Vec<Kind>,
    pub plan: Plan,
}

impl Settlement {
    ghost use Rattle.slab_node.specs.Settlements.{IsSettledNode, IsSettlement};

    // The settlement of a node.
    pub(crate) fn new(alloc: Global, node: &Node<'_>) -> Result<Settlement, AllocError>
        requires { IsSettledNode node.now }
        ensures { IfOk result (IsSettlement node.now) }
    {
        // It tells that a mill has few orders.
        let _few = node.mill.orders();
        let heads = firsts_of(alloc, node)?;
        let slabs = slabs_of(alloc, node)?;
        let kinds = kinds_of(alloc, node, &heads, &slabs)?;
        let plan = plan_by(alloc, &heads, &kinds)?;
        Ok(Settlement { heads, kinds, plan })
    }
}
