//! What a plan costs.

ghost use Rattle.std.specs.Prelude.{◌≡◌, ◌≤◌, length};
ghost use Rattle.std.specs.List.{sum_by};
ghost use Rattle.mill_model.specs.Mill.{most_orders, IsInLimits};
ghost use Rattle.mill_model.specs.Columns.{size_of};
ghost use Rattle.mill_model.specs.Plain.{total_weight as total_weight_of};
ghost use Rattle.slab_filling.specs.Slabs.{closed, least_size};
ghost use Rattle.mill_model.specs.Plans.{sums_of};
ghost use Rattle.slab_filling.specs.Closing.{plan_of_filled};
ghost use Rattle.slab_lns.specs.Rounds.{is_no_worse as is_no_worse_than};

use loss_table::LossTable;
use mill_model::{Kind, MOST_ORDERS, Mill, Sums};
use slab_filling::{Slab, greatest_size, new_slabs};

// The sums of the plan of these slabs, once they are closed.
pub(crate) fn closed_sums(mill: &Mill, table: &LossTable, slabs: &[Slab]) -> Sums
    requires few { length slabs.now ≤ most_orders }
    requires sizes { table.now ≡ mill.now.sizes }
    ensures { result ≡ sums_of mill.now (plan_of_filled mill.now slabs.now) }
{
    Sums {
        loss: total_size(mill, table, slabs).saturating_sub(total_weight(mill)),
        count: new_slabs(slabs) as u16,
    }
}

// Whether the new plan has less loss, or as much and no more new slabs.
pub(crate) fn is_no_worse(new: Sums, old: Sums) -> bool
    ensures { result ≡ is_no_worse_than new old }
{
    new.loss < old.loss || (new.loss == old.loss && new.count <= old.count)
}

// The sizes of the slabs, once they are closed, together.
fn total_size(mill: &Mill, table: &LossTable, slabs: &[Slab]) -> u32
    requires few { length slabs.now ≤ most_orders }
    requires sizes { table.now ≡ mill.now.sizes }
    ensures { result ≡ sum_by (λ slab. size_of mill.now (closed mill.now slab).kind) slabs.now }
{
    let mut sum: u32 = 0;
    for slab in slabs {
        sum += u32::from(closed_size(mill, table, slab));
    }
    sum
}

// The size of a slab, once it is closed.
fn closed_size(mill: &Mill, table: &LossTable, slab: &Slab) -> u16
    requires { table.now ≡ mill.now.sizes }
    ensures { result ≡ size_of mill.now (closed mill.now slab.now).kind }
{
    match slab.kind() {
        Kind::New(_) => new_size(mill, table, slab.load(mill)),
        Kind::Old(old) => mill.size_of(Kind::Old(old)),
    }
}

// The least listed size that holds a load, or the greatest where none does.
fn new_size(mill: &Mill, table: &LossTable, load: u32) -> u16
    requires { table.now ≡ mill.now.sizes }
    ensures value { result ≡ least_size mill.now load }
    ensures limits { IsInLimits mill.now }
{
    let _sizes = mill.sizes();
    match table.size_for(load) {
        Some(size) => size,
        None => greatest_size(mill),
    }
}

// What all orders weigh together.
fn total_weight(mill: &Mill) -> u32
    ensures { result ≡ total_weight_of mill.now }
{
    let orders = mill.orders();
    prove!(orders.len() <= MOST_ORDERS as usize);
    let mut sum: u32 = 0;
    for order in orders {
        sum += u32::from(order.weight);
    }
    sum
}
