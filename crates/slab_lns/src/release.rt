//! What is kept of the slabs, and which orders are placed anew.

ghost use Rattle.std.specs.Prelude.{◌≡◌, ◌<◌, ◌||◌, [], length, IfOk, OnOk};
ghost use Rattle.mill_model.specs.Mill.{IsInLimits};
ghost use Rattle.mill_model.specs.Columns.{has};
ghost use Rattle.slab_lns.specs.Neighbourhoods.{kept as kept_of, released as released_of, slab_at};
ghost use Rattle.slab_lns.specs.Neighbourhoods.{opened as opened_slab, opened_kind as opened_kind_of, is_one_of as is_one_of_two};

use crate::shelf::Shelf;
use mill_model::{Kind, MOST_ORDERS, Mill};
use slab_filling::{Slab, greatest_size};
use std::alloc::{AllocError, Global};

// Puts the slabs but these two into a list without slabs, opened again.
pub(crate) fn keep(
    alloc: Global,
    mill: &Mill,
    shelf: &mut Shelf,
    slabs: &[Slab],
    pair: (usize, usize),
    kept: &mut Vec<Slab>,
) -> Result<(), AllocError>
    requires { kept.old.items ≡ [] }
    ensures { OnOk result (kept.new.items ≡ kept_of mill.now pair.0 pair.1 slabs.now) }
{
    for k in 0..slabs.len() {
        if !is_one_of(pair, k) {
            kept.push(opened(alloc, mill, shelf, &slabs[k])?)?;
        }
    }
    Ok(())
}

fn is_one_of(pair: (usize, usize), k: usize) -> bool
    ensures { result ≡ is_one_of_two pair.0 pair.1 k }
{
    k == pair.0 || k == pair.1
}

// A copy of a slab, opened again.
fn opened(alloc: Global, mill: &Mill, shelf: &mut Shelf, slab: &Slab) -> Result<Slab, AllocError>
    ensures { IfOk result (λ copy. copy ≡ opened_slab mill.now slab.now) }
{
    let mut orders = shelf.take(alloc);
    orders.extend_from_slice(slab.orders())?;
    Ok(Slab::new(opened_kind(mill, slab.kind()), orders))
}

fn opened_kind(mill: &Mill, kind: Kind) -> Kind
    ensures { result ≡ opened_kind_of mill.now kind }
{
    match kind {
        Kind::New(_) => Kind::New(greatest_size(mill)),
        Kind::Old(slab) => Kind::Old(slab),
    }
}

// Lists the orders on these two slabs, by rising number.
pub(crate) fn release(
    mill: &Mill,
    slabs: &[Slab],
    pair: (usize, usize),
    orders: &mut Vec<u16>,
) -> Result<(), AllocError>
    requires first { pair.0 < length slabs.now }
    requires second { pair.1 < length slabs.now }
    ensures orders { OnOk result (orders.new.items ≡ released_of mill.now pair.0 pair.1 slabs.now) }
    ensures limits { IsInLimits mill.now }
{
    orders.clear();
    let count = mill.orders().len();
    prove!(count <= MOST_ORDERS as usize);
    for o in 0..count {
        if has_one(slabs, pair, o as u16) {
            orders.push(o as u16)?;
        }
    }
    Ok(())
}

// Whether one of these two slabs has an order.
fn has_one(slabs: &[Slab], pair: (usize, usize), order: u16) -> bool
    requires first { pair.0 < length slabs.now }
    requires second { pair.1 < length slabs.now }
    ensures { result ≡
        (has (slab_at slabs.now pair.0).orders order || has (slab_at slabs.now pair.1).orders order) }
{
    slabs[pair.0].has(order) || slabs[pair.1].has(order)
}
