//! Where a tree is searched: a mill with its table of least sizes, and the decisions above the next node.

ghost use Rattle.std.specs.Prelude.{◌≡◌, [], IfOk};
ghost use Rattle.slab_tree.specs.Trails.{HasExtentOf};

use loss_table::LossTable;
use mill_model::Mill;
use slab_decide::Decisions;
use std::alloc::{AllocError, Global};

// A mill with its table, and decisions about its orders and surplus slabs.
#[derive(Drop)]
pub(crate) struct Workplace<'a> {
    pub(crate) mill: &'a Mill,
    pub(crate) table: &'a LossTable,
    pub(crate) decisions: Decisions,
    ghost sizes: { table.now ≡ mill.now.sizes },
    ghost extent: { HasExtentOf mill.now decisions },
}

impl<'a> Workplace<'a> {
    // A workplace without decisions.
    pub(crate) fn new(
        alloc: Global,
        mill: &'a Mill,
        table: &'a LossTable,
    ) -> Result<Workplace<'a>, AllocError>
        requires { table.now ≡ mill.now.sizes }
        ensures mill { IfOk result (λ made. made.mill.now ≡ mill.now) }
        ensures none { IfOk result (λ made. made.decisions.list ≡ []) }
    {
        let orders = mill.orders().len() as u16;
        let yard = mill.yard().len() as u16;
        let decisions = Decisions::new(alloc, orders, yard)?;
        Ok(Workplace {
            mill,
            table,
            decisions,
        })
    }
}
