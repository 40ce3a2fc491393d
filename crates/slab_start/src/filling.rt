//! Where an order goes.

ghost use Rattle.std.specs.Prelude.{◌≡◌, [], IfOk};
ghost use Rattle.std.specs.Bool.{then_some};
ghost use Rattle.std.specs.Option.{option_map};
ghost use Rattle.std.specs.List.{position, find};
ghost use Rattle.slab_filling.specs.Slabs.{takes as takes_order, takes_alone};
ghost use Rattle.slab_start.specs.FirstFit.{place_orders, place_order as placed_order};
ghost use Rattle.slab_filling.specs.Placing.{kinds_to_open, free_kinds};

use mill_model::{Kind, MOST_SLABS, Mill};
use slab_filling::{Slab, greatest_size, is_below, is_open, new_slabs, takes};
use std::alloc::{AllocError, Global};

// Places the orders in turn, each on the first slab that takes it.
pub(crate) fn fill(
    alloc: Global,
    mill: &Mill,
    limit: Option<i64>,
    orders: &[u16],
) -> Result<Option<Vec<Slab>>, AllocError>
    ensures { IfOk result (λ found.
        option_map (λ slabs. slabs.items) found ≡ place_orders mill.now limit orders.now []) }
{
    let mut slabs = Vec::new(alloc);
    for order in orders {
        if !place_order(alloc, mill, limit, *order, &mut slabs)? {
            return Ok(None);
        }
    }
    Ok(Some(slabs))
}

// Places an order on the first slab that takes it, where there is one or may be one more.
fn place_order(
    alloc: Global,
    mill: &Mill,
    limit: Option<i64>,
    order: u16,
    slabs: &mut Vec<Slab>,
) -> Result<bool, AllocError>
    ensures { IfOk result (λ placed.
        placed_order mill.now limit order slabs.old.items ≡ then_some placed slabs.new.items) }
{
    if let Some(k) = first_that_takes(mill, order, slabs) {
        slabs[k].put(order)?;
        return Ok(true);
    }
    match kind_to_open(mill, limit, order, slabs) {
        Some(kind) => {
            let mut slab = Slab::empty(alloc, kind);
            slab.put(order)?;
            slabs.push(slab)?;
            Ok(true)
        }
        None => Ok(false),
    }
}

fn first_that_takes(mill: &Mill, order: u16, slabs: &[Slab]) -> Option<usize>
    ensures { result ≡ position (takes_order mill.now order) slabs.now }
{
    slabs.iter().position(|slab| slab.takes(mill, order))
}

// The slab to be opened for an order: a new one, where it may be and takes it, or the first free surplus slab that
// does.
fn kind_to_open(mill: &Mill, limit: Option<i64>, order: u16, slabs: &[Slab]) -> Option<Kind>
    ensures { result ≡ find (takes_alone mill.now order) (kinds_to_open mill.now limit slabs.now) }
{
    let new = Kind::New(greatest_size(mill));
    if is_below(new_slabs(slabs), limit) && takes(mill, new, &[], order) {
        return Some(new);
    }
    surplus_to_open(mill, order, slabs)
}

fn surplus_to_open(mill: &Mill, order: u16, slabs: &[Slab]) -> Option<Kind>
    ensures { result ≡ find (takes_alone mill.now order) (free_kinds mill.now slabs.now) }
{
    let count = mill.yard().len();
    prove!(count <= MOST_SLABS as usize);
    for s in 0..count {
        let kind = Kind::Old(s as u16);
        if !is_open(slabs, s as u16) && takes(mill, kind, &[], order) {
            return Some(kind);
        }
    }
    None
}
