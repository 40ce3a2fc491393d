//! The groups of some colours, with what the first so many of them gain at most.
ghost use Rattle.std.specs.Prelude.{◌≡◌, ◌+◌, ◌≤◌, IfOk, vec_capacity};
ghost use Rattle.mill_model.specs.Mill.{most_orders, most_weight};

use mill_model::MOST_ORDERS;
use std::alloc::{AllocError, Global};

// A table has at most so many entries.
const ENTRIES: usize = 1_048_576;

// The heads of the groups of some colours, and a table with a row for each number of the first ones and a column for each
// multiple of a step of the load: what they gain at most beside it, less the cost of a slab.
#[derive(Drop)]
pub(crate) struct Queue {
    pub heads: Vec<u16>,
    pub step: usize,
    pub width: usize,
    pub table: Vec<i128>,
    ghost heads_room: { most_orders ≤ vec_capacity heads },
    ghost table_room: { most_orders + 1 ≤ vec_capacity table },
}

impl Queue {
    // Room for the groups of any colours, and for a table for so many orders and loads, as far as the most entries go.
    pub(crate) fn new(alloc: Global, orders: usize, loads: usize) -> Result<Queue, AllocError>
        requires orders { orders ≤ most_orders }
        requires loads { loads ≤ most_weight + 1 }
    {
        let entries = (orders + 1) * loads;
        Ok(Queue {
            heads: Vec::with_capacity(alloc, MOST_ORDERS as usize)?,
            step: 1,
            width: 1,
            table: Vec::with_capacity(alloc, entries.min(ENTRIES).max(MOST_ORDERS as usize + 1))?,
        })
    }
}
