//! Numbers that go by keys.
ghost use Rattle.std.specs.Prelude.{◌+◌, ◌≤◌, vec_capacity};
ghost use Rattle.mill_model.specs.Mill.{most_colours, most_orders};

use mill_model::{MOST_COLOURS, MOST_ORDERS};
use std::alloc::{AllocError, Global};

// Numbers from 0 on that have keys: for each key the first number that has it, and for each number the next one that has the
// same key; in place of a number that there isn't, how many numbers there are.
#[derive(Drop)]
pub(crate) struct Chains {
    pub first: Vec<u16>,
    pub next: Vec<u16>,
    ghost first_room: { most_colours + 1 ≤ vec_capacity first },
    ghost next_room: { most_orders ≤ vec_capacity next },
}

impl Chains {
    // Room for 250 numbers and 251 keys.
    pub(crate) fn new(alloc: Global) -> Result<Chains, AllocError> {
        Ok(Chains {
            first: Vec::with_capacity(alloc, MOST_COLOURS as usize + 1)?,
            next: Vec::with_capacity(alloc, MOST_ORDERS as usize)?,
        })
    }
}
