//! The groups that a walk has chosen, and the best column that it found.
ghost use Rattle.std.specs.Prelude.{◌≡◌, ◌≤◌, pos, IfOk, [], vec_capacity};
ghost use Rattle.mill_model.specs.Mill.{most_orders};

use crate::best::Best;
use mill_model::MOST_ORDERS;
use std::alloc::{AllocError, Global};

// The heads chosen in a walk, room for the orders of their groups, and the best column so far.
#[derive(Drop)]
pub(crate) struct Picks {
    pub chosen: Vec<u16>,
    pub orders: Vec<u16>,
    pub best: Best,
    ghost chosen_room: { most_orders ≤ vec_capacity chosen },
    ghost orders_room: { most_orders ≤ vec_capacity orders },
}

impl Picks {
    // Nothing is chosen, and there is no column.
    pub(crate) fn new(alloc: Global) -> Result<Picks, AllocError>
        ensures chosen { IfOk result (λ picks. picks.chosen.items ≡ []) }
        ensures none { IfOk result (λ picks. picks.best.excess ≡ pos 0) }
    {
        Ok(Picks {
            chosen: Vec::with_capacity(alloc, MOST_ORDERS as usize)?,
            orders: Vec::with_capacity(alloc, MOST_ORDERS as usize)?,
            best: Best::new(alloc)?,
        })
    }
}
