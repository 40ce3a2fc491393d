//! The best column so far.
ghost use Rattle.std.specs.Prelude.{◌≡◌, ◌≤◌, ◌<ℤ◌, pos, IfOk, IfSome, IfNone, length, vec_capacity};
ghost use Rattle.mill_model.specs.Mill.{most_orders};

use crate::Found;
use mill_model::{Kind, MOST_ORDERS};
use std::alloc::{AllocError, Global};

// The best column so far; an excess of 0 says that there is none. There is room for any orders.
#[derive(Drop)]
pub(crate) struct Best {
    pub kind: Kind,
    pub orders: Vec<u16>,
    pub excess: i128,
    ghost room: { most_orders ≤ vec_capacity orders },
}

impl Best {
    // No column.
    pub(crate) fn new(alloc: Global) -> Result<Best, AllocError>
        ensures { IfOk result (λ best. best.excess ≡ pos 0) }
    {
        Ok(Best {
            kind: Kind::New(0),
            orders: Vec::with_capacity(alloc, MOST_ORDERS as usize)?,
            excess: 0,
        })
    }

    // Takes a column in place of the one before.
    pub(crate) fn replace(&mut self, kind: Kind, orders: &[u16], excess: i128)
        requires { length orders.now ≤ most_orders }
        ensures kind { self.new.kind ≡ kind }
        ensures orders { self.new.orders.items ≡ orders.now }
        ensures excess { self.new.excess ≡ excess }
    {
        self.kind = kind;
        self.excess = excess;
        self.orders.clear();
        if self.orders.extend_from_slice(orders).is_err() {
            unreachable!();
        }
    }

    // The column, where there is one.
    pub(crate) fn found(self) -> Option<Found>
        ensures some { IfSome result (λ found.
            found ≡ record { kind = self.kind; orders = self.orders.items; excess = self.excess }) }
        ensures above { IfSome result (λ _. pos 0 <ℤ self.excess) }
        ensures none { IfNone result (pos 0 <ℤ self.excess → ⊥) }
    {
        if self.excess <= 0 {
            return None;
        }
        Some(Found::new(self.kind, self.orders, self.excess))
    }
}
