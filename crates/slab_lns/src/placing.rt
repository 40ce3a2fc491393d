//! Where the released orders go.

ghost use Rattle.std.specs.Prelude.{◌≡◌, ◌≤◌, Some, IfOk};
ghost use Rattle.std.specs.Bool.{then_some};
ghost use Rattle.mill_model.specs.Mill.{most_orders};
ghost use Rattle.slab_lns.specs.Options.{place_one, place_all as all_placed};

use crate::shelf::Shelf;
use crate::ways::{Way, list_ways};
use mill_model::{MOST_SLABS, Mill};
use number_draws::Draws;
use slab_filling::Slab;
use std::alloc::{AllocError, Global};

// The lists that placing uses, and the numbers by which it goes.
#[derive(Drop)]
pub(crate) struct Placing {
    pub shelf: Shelf,
    pub ways: Vec<Way>,
    pub draws: Draws,
}

impl Placing {
    // For so many orders, with these lists, by the numbers of a seed. There are no more ways than slabs with orders, one
    // new slab and the surplus slabs.
    pub(crate) fn new(
        alloc: Global,
        shelf: Shelf,
        orders: usize,
        seed: u32,
    ) -> Result<Placing, AllocError>
        requires { orders ≤ most_orders }
        ensures { IfOk result (λ placing. placing.draws.last ≡ seed) }
    {
        Ok(Placing {
            shelf,
            ways: Vec::with_capacity(alloc, orders + MOST_SLABS as usize + 1)?,
            draws: Draws { last: seed },
        })
    }

    // Places the orders, each in a way that is drawn. It answers whether each had one.
    pub(crate) fn place_all(
        &mut self,
        alloc: Global,
        mill: &Mill,
        limit: Option<i64>,
        orders: &[u16],
        slabs: &mut Vec<Slab>,
    ) -> Result<bool, AllocError>
        ensures { IfOk result (λ placed.
            all_placed mill.now limit orders.now slabs.old.items self.old.draws.last
            ≡ record { found = then_some placed slabs.new.items; last = self.new.draws.last }) }
    {
        for order in orders {
            if !self.place(alloc, mill, limit, *order, slabs)? {
                return Ok(false);
            }
        }
        Ok(true)
    }

    // Places an order in a way that is drawn, where it has one.
    fn place(
        &mut self,
        alloc: Global,
        mill: &Mill,
        limit: Option<i64>,
        order: u16,
        slabs: &mut Vec<Slab>,
    ) -> Result<bool, AllocError>
        ensures { IfOk result (λ placed.
            place_one mill.now limit order slabs.old.items self.old.draws.last
            ≡ record { found = then_some placed slabs.new.items; last = self.new.draws.last }) }
    {
        list_ways(mill, limit, order, slabs, &mut self.ways)?;
        let count = self.ways.len();
        if count == 0 {
            return Ok(false);
        }
        let drawn = self.draws.among(count);
        match self.ways[drawn] {
            Way::On(k) => slabs[k].put(order)?,
            Way::Open(kind) => {
                let mut slab = Slab::new(kind, self.shelf.take(alloc));
                slab.put(order)?;
                slabs.push(slab)?;
            }
        }
        Ok(true)
    }
}
