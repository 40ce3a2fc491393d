//! Room for the test of a leaf.
ghost use Rattle.std.specs.Prelude.{◌+◌, ◌≤◌, IfOk, IfNone, IfSome, length};
ghost use Rattle.mill_model.specs.Mill.{most_orders, most_weight};
ghost use Rattle.price_check.specs.Exceeding.{IsExceeding};
ghost use Rattle.mill_model.specs.Prices.{NoneExceeds};
ghost use Rattle.price_check.specs.Ready.{HasSpace};

use crate::frame::Frame;
use crate::leaf::Leaf;
use crate::picks::Picks;
use crate::queue::Queue;
use crate::search::Search;
use crate::sets::Space;
use mill_model::Kind;
use std::alloc::{AllocError, Global};

// Room for the test of a leaf.
#[derive(Drop)]
pub(crate) struct Workspace {
    pub frame: Frame,
    pub space: Space,
    pub picks: Picks,
}

impl Workspace {
    // Room for so many orders and loads.
    pub(crate) fn new(alloc: Global, orders: usize, loads: usize) -> Result<Workspace, AllocError>
        requires orders { orders ≤ most_orders }
        requires loads { loads ≤ most_weight + 1 }
        ensures { IfOk result (HasSpace orders) }
    {
        Ok(Workspace {
            frame: Frame::new(alloc, orders)?,
            space: Space::new(alloc, Queue::new(alloc, orders, loads)?)?,
            picks: Picks::new(alloc)?,
        })
    }
}

impl Leaf<'_> {
    // Looks for a column that exceeds. Where there is one, its orders are listed then.
    pub(crate) fn search(&self, workspace: &mut Workspace) -> Option<Kind>
        requires { HasSpace (length self.now.mill.now.orders) workspace.old }
        ensures space { HasSpace (length self.now.mill.now.orders) workspace.new }
        ensures none { IfNone result
            (NoneExceeds self.now.mill.now self.now.trail.now.decisions self.now.quote.now) }
        ensures some { IfSome result (λ kind.
            IsExceeding self.now.mill.now self.now.trail.now.decisions self.now.quote.now
            (record { kind = kind; orders = workspace.new.picks.orders.items })) }
    {
        if self.is_cheap() {
            return None;
        }
        workspace.space.colours.clear();
        workspace.picks.chosen.clear();
        self.fill_frame(&mut workspace.frame);
        let rank = workspace.frame.ranking.len();
        let search = Search {
            leaf: *self,
            frame: &workspace.frame,
        };
        let limit = self.mill.colour_limit();
        search.search_sets(rank, limit, 0, &mut workspace.space, &mut workspace.picks)
    }
}
