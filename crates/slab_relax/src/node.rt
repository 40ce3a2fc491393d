ghost use Rattle.slab_relax.specs.Nodes.{BelongTogether};

use loss_table::LossTable;
use mill_model::{Limits, Mill};
use slab_decide::Decisions;

/// A node of a search: a mill with its table of least sizes, branching decisions, and upper limits.
#[derive(Clone, Copy)]
pub struct Node<'a> {
    pub mill: &'a Mill,
    pub table: &'a LossTable,
    pub decisions: &'a Decisions,
    /// Each limit that stands is at most 2^40 in absolute value.
    pub limits: Limits,
    pub ghost together: { BelongTogether mill.now table.now decisions.now limits },
}
