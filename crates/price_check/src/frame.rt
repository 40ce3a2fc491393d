//! What stands through the test of a leaf.
ghost use Rattle.std.specs.Prelude.{◌+◌, ◌≡◌, ◌*◌, ◌≤◌, IfOk, length, vec_capacity};
ghost use Rattle.mill_model.specs.Mill.{most_colours, most_orders, most_weight};
ghost use Rattle.pricing_laws.specs.Groupings.{HasRoom};

use crate::chains::Chains;
use crate::groups::Groups;
use mill_model::{MOST_COLOURS, MOST_ORDERS, MOST_WEIGHT};
use std::alloc::{AllocError, Global};

// What stands through the test of a leaf.
#[derive(Drop)]
pub(crate) struct Frame {
    pub groups: Groups,
    // For each two heads, whether a decision keeps their groups apart: then no column that agrees has both.
    pub apart: Vec<bool>,
    // For each head its colour, and 0 for other orders.
    pub keys: Vec<u16>,
    // The heads by their colours.
    pub by_colour: Chains,
    // The orders by their heads.
    pub by_head: Chains,
    // For each load what a slab that holds it costs at least, with its sign turned.
    pub ends: Vec<i128>,
    // For each colour what the groups are worth at most whose head has it.
    pub worths: Vec<i128>,
    // The colours that orders have, those of greatest worth last.
    pub ranking: Vec<u16>,
    // No slab charges less.
    pub floor: i128,
    ghost keys_room: { most_orders ≤ vec_capacity keys },
    ghost ends_room: { most_weight + 1 ≤ vec_capacity ends },
    ghost worths_room: { most_colours + 1 ≤ vec_capacity worths },
    ghost ranking_room: { most_orders ≤ vec_capacity ranking },
}

impl Frame {
    // Room for so many orders.
    pub(crate) fn new(alloc: Global, orders: usize) -> Result<Frame, AllocError>
        requires { orders ≤ most_orders }
        ensures groups { IfOk result (λ frame. HasRoom orders frame.groups) }
        ensures apart { IfOk result (λ frame. length frame.apart.items ≡ orders * orders) }
    {
        Ok(Frame {
            groups: Groups::new(alloc, orders)?,
            apart: vec![in alloc; false; orders * orders]?,
            keys: Vec::with_capacity(alloc, MOST_ORDERS as usize)?,
            by_colour: Chains::new(alloc)?,
            by_head: Chains::new(alloc)?,
            ends: Vec::with_capacity(alloc, MOST_WEIGHT as usize + 1)?,
            worths: Vec::with_capacity(alloc, MOST_COLOURS as usize + 1)?,
            ranking: Vec::with_capacity(alloc, MOST_ORDERS as usize)?,
            floor: 0,
        })
    }
}
