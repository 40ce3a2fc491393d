//! The column of greatest excess.
ghost use Rattle.std.specs.Prelude.{pos, ◌≤ℤ◌, IfOk, IfSome, IfNone};
ghost use Rattle.slab_price.specs.Excess.{BelongTogether, IsGreatest, IsWorst};

use crate::Found;
use crate::picks::Picks;
use crate::queue::Queue;
use crate::search::Search;
use crate::sets::Space;
use crate::task::Task;
use loss_table::LossTable;
use mill_model::{Mill, Prices};
use slab_decide::Decisions;
use std::alloc::{AllocError, Global};

/// The column of greatest excess among the legal columns that the decisions allow, where that excess is above 0, and
/// `None` exactly where no such column has an excess above 0. A new slab is of the least size that holds its orders. The
/// only error is want of memory, which is taken before the search: at the limits less than 20 MiB, most of it for a table of
/// at most 1,048,576 entries.
pub fn worst(
    alloc: Global,
    mill: &Mill,
    table: &LossTable,
    decisions: &Decisions,
    prices: &Prices,
) -> Result<Option<Found>, AllocError>
    requires together { BelongTogether mill.now table.now decisions.now prices.now }
    requires lambda { pos 0 ≤ℤ prices.now.lambda }
    ensures some { IfOk result (λ answer.
        IfSome answer (IsWorst mill.now decisions.now.list prices.now)) }
    ensures none { IfOk result (λ answer.
        IfNone answer (IsGreatest mill.now decisions.now.list prices.now (pos 0))) }
{
    let count = mill.orders().len();
    let task = Task {
        mill,
        table,
        decisions,
        prices,
    };
    let frame = task.frame(alloc)?;
    let queue = Queue::new(alloc, count, frame.ends.len())?;
    let mut space = Space::new(alloc, queue);
    let mut picks = Picks::new(alloc)?;
    let search = Search {
        task,
        frame: &frame,
    };
    search.search_sets(
        frame.ranking.len(),
        mill.colour_limit(),
        0,
        &mut space,
        &mut picks,
    );
    Ok(picks.best.found())
}
