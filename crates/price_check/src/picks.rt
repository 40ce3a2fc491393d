//! The groups that a walk has chosen, and their orders.
ghost use Rattle.std.specs.Prelude.{◌≡◌, ◌≤◌, IfOk, [], vec_capacity};
ghost use Rattle.mill_model.specs.Mill.{most_orders};

use mill_model::MOST_ORDERS;
use std::alloc::{AllocError, Global};

// The heads chosen in a walk, and the orders of their groups where they were offered.
#[derive(Drop)]
pub(crate) struct Picks {
    pub chosen: Vec<u16>,
    pub orders: Vec<u16>,
    ghost chosen_room: { most_orders ≤ vec_capacity chosen },
    ghost orders_room: { most_orders ≤ vec_capacity orders },
}

impl Picks {
    // Nothing is chosen.
    pub(crate) fn new(alloc: Global) -> Result<Picks, AllocError>
        ensures { IfOk result (λ picks. picks.chosen.items ≡ []) }
    {
        Ok(Picks {
            chosen: Vec::with_capacity(alloc, MOST_ORDERS as usize)?,
            orders: Vec::with_capacity(alloc, MOST_ORDERS as usize)?,
        })
    }
}
