//! A column as the master sees it.
ghost use Rattle.std.specs.Prelude.{◌≡◌, ◌≤◌, ◌++◌, OnOk};
ghost use Rattle.mill_model.specs.Columns.{IsLegalColumn, IsInStock, column_of};
ghost use Rattle.slab_master.specs.Given.{IsColumn};
ghost use Rattle.slab_relax.specs.Rows.{row_count, order_entries, slab_entries, loss_entries, count_entries, entries_of};

use mill_model::{Kind, Limits, Mill};
use std::alloc::AllocError;

// Adds the entries of the orders.
#[tactic(auto, using(crate::proofs::Putting::orders_more))]
fn put_orders(entries: &mut Vec<(u16, i64)>, orders: &[u16]) -> Result<(), AllocError>
    ensures { OnOk result (entries.new.items ≡ entries.old.items ++ order_entries orders.now) }
{
    for &order in orders {
        entries.push((order, 1))?;
    }
    Ok(())
}

// Adds the entry of a surplus slab.
fn put_slab(entries: &mut Vec<(u16, i64)>, mill: &Mill, kind: Kind) -> Result<(), AllocError>
    requires { IsInStock mill.now kind }
    ensures { OnOk result (entries.new.items ≡ entries.old.items ++ slab_entries mill.now kind) }
{
    if let Kind::Old(slab) = kind {
        let first = mill.orders().len() as u16;
        let count = mill.yard().len();
        prove!(slab < count as u16);
        entries.push((first + slab, 1))?;
    }
    Ok(())
}

// Adds the entry of the loss, where it is limited.
fn put_loss(
    entries: &mut Vec<(u16, i64)>,
    mill: &Mill,
    limit: Option<i64>,
    loss: u16,
) -> Result<(), AllocError>
    ensures { OnOk result (entries.new.items
        ≡ entries.old.items ++ loss_entries mill.now limit loss) }
{
    if let Some(_number) = limit {
        let row = mill.orders().len() + mill.yard().len();
        entries.push((row as u16, i64::from(loss)))?;
    }
    Ok(())
}

// Adds the entry of a new slab, where their number is limited.
fn put_count(
    entries: &mut Vec<(u16, i64)>,
    mill: &Mill,
    limit: Option<i64>,
    kind: Kind,
) -> Result<(), AllocError>
    ensures { OnOk result (entries.new.items
        ≡ entries.old.items ++ count_entries mill.now limit kind) }
{
    if let Some(_number) = limit {
        if let Kind::New(_size) = kind {
            let row = mill.orders().len() + mill.yard().len() + 1;
            entries.push((row as u16, 1))?;
        }
    }
    Ok(())
}

// Writes the entries of a column in place of what was there.
#[tactic(auto, using(crate::proofs::Putting::put_together))]
pub(crate) fn put_entries(
    mill: &Mill,
    limits: Limits,
    kind: Kind,
    orders: &[u16],
    entries: &mut Vec<(u16, i64)>,
) -> Result<(), AllocError>
    requires { IsLegalColumn mill.now (column_of kind orders.now) }
    ensures value { OnOk result (entries.new.items
        ≡ entries_of mill.now limits (column_of kind orders.now)) }
    ensures column { OnOk result (IsColumn (row_count mill.now) entries.new.items) }
{
    entries.clear();
    put_orders(entries, orders)?;
    put_slab(entries, mill, kind)?;
    let loss = mill.loss_of(kind, orders);
    put_loss(entries, mill, limits.loss, loss)?;
    put_count(entries, mill, limits.count, kind)?;
    Ok(())
}
