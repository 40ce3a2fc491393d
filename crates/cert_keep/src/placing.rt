//! A point and its plan, slab by slab.
ghost use Rattle.std.specs.Prelude.{◌≡◌, IfOk, OnOk, slice_set};
ghost use Rattle.cert_keep.specs.Building.{add_slab, empty_plan, fit, put_on};

use mill_model::{Kind, Plan, Proved, Steps, Sums};
use std::alloc::{AllocError, Global};
use std::marker::Model;

/// A point that is read: its sums, and its plan so far.
#[derive(Drop)]
pub(crate) struct Placing {
    sums: Sums,
    kinds: Vec<Kind>,
    place: Vec<u16>,
}

impl Model for Placing {
    ghost use Rattle.mill_model.specs.declared.sums.Sums.{Sums};
    ghost use Rattle.mill_model.specs.Plans.{Plan};

    ghost Value = { Sums × Plan };

    ghost view = { λ p. (p.sums, record { kinds = p.kinds.items; place = p.place.items }) };
}

impl Placing {
    // No slab, in a mill with so many orders.
    pub(crate) fn new(alloc: Global, sums: Sums, orders: usize) -> Result<Placing, AllocError>
        ensures { IfOk result (λ p. p ≡ (sums, empty_plan orders)) }
    {
        let place = vec![in alloc; 0; orders]?;
        Ok(Placing {
            sums,
            kinds: Vec::new(alloc),
            place,
        })
    }

    // One slab more.
    pub(crate) fn add(&mut self, kind: Kind, orders: &[u16]) -> Result<(), AllocError>
        ensures { OnOk result (self.new ≡ (self.old.0, add_slab self.old.1 kind orders.now)) }
    {
        let slab = slab_number(self.kinds.len());
        put_on(&mut self.place, slab, orders);
        self.kinds.push(kind)?;
        Ok(())
    }

    // The point with its tree.
    pub(crate) fn into_point(self, steps: Steps) -> Proved
        ensures { result ≡ record { sums = self.0; plan = self.1; steps = steps } }
    {
        Proved::new(self.sums, Plan::new(self.kinds, self.place), steps)
    }
}

// The number of the slab after so many.
fn slab_number(count: usize) -> u16
    ensures { result ≡ fit 16 count }
{
    if count < 65_536 { count as u16 } else { 0 }
}

// The orders lie on a slab.
fn put_on(place: &mut [u16], slab: u16, orders: &[u16])
    ensures { place.new ≡ put_on place.old slab orders.now }
{
    for order in orders {
        put_one(place, slab, usize::from(*order));
    }
}

// An order lies on a slab.
fn put_one(place: &mut [u16], slab: u16, order: usize)
    ensures { place.new ≡ slice_set place.old order slab }
{
    if order < place.len() {
        place[order] = slab;
    }
}
