//! The plan of a cover that answers each question by yes or no.
ghost use Rattle.std.specs.Prelude.{◌≡◌, ◌<◌, IfOk, length};
ghost use Rattle.slab_node.specs.Grouped.{slab_of};

use crate::kinds::kinds_of;
use crate::plans::plan_by;
use crate::wholes::Wholes;
use mill_model::{Kind, Plan};
use std::alloc::{AllocError, Global};

/// The group of each order, by its first order and its surplus slab, if it lies on one.
#[derive(Drop)]
struct Groups {
    heads: Vec<u16>,
    slabs: Vec<Option<u16>>,
}

// The surplus slab, if it is one.
fn surplus(kind: Kind) -> Option<u16>
    ensures { result ≡ slab_of kind }
{
    match kind {
        Kind::New(_size) => None,
        Kind::Old(slab) => Some(slab),
    }
}

impl Wholes<'_> {
    ghost use Rattle.mill_model.specs.Decisions.{AreAsks};
    ghost use Rattle.slab_node.specs.AtNodes.{IsInBoxAt};
    ghost use Rattle.slab_node.specs.Taken.{IsTaken, AreTaken};
    ghost use Rattle.slab_node.specs.OfWholes.{parts_in, IsCoverIn, IsWholeIn};

    // The first order and the surplus slab of the first column that has an order.
    fn group(&self, order: u16) -> (u16, Option<u16>)
        requires { order < length self.now.node.mill.now.orders }
        ensures { IsTaken (parts_in self.now) order result.0 result.1 }
    {
        for part in self.cover {
            let column = self.pool.column(part.0);
            if column.orders.contains(&order) {
                return (column.orders[0], surplus(column.kind));
            }
        }
        unreachable!()
    }

    // The group of each order.
    fn groups(&self, alloc: Global) -> Result<Groups, AllocError>
        ensures { IfOk result (λ g. AreTaken self.now.node.mill.now (parts_in self.now)
            g.heads.items g.slabs.items) }
    {
        let count = self.node.mill.orders().len();
        let mut heads = Vec::with_capacity(alloc, count)?;
        let mut slabs = Vec::with_capacity(alloc, count)?;
        for order in 0..count {
            let (head, slab) = self.group(order as u16);
            heads.push(head)?;
            slabs.push(slab)?;
        }
        Ok(Groups { heads, slabs })
    }

    // The plan of the groups, each on its surplus slab or on a new one of the least size that holds it.
    pub(crate) fn plan(&self, alloc: Global) -> Result<Plan, AllocError>
        requires cover { IsCoverIn self.now }
        requires whole { IsWholeIn self.now }
        requires asks { AreAsks self.now.node.mill.now self.now.node.decisions.now.list }
        ensures { IfOk result (IsInBoxAt self.now.node) }
    {
        let _few = self.node.mill.orders();
        let groups = self.groups(alloc)?;
        let kinds = kinds_of(alloc, &self.node, &groups.heads, &groups.slabs)?;
        plan_by(alloc, &groups.heads, &kinds)
    }
}
