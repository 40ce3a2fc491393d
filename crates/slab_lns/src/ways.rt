//! The ways to place an order.

ghost use Rattle.std.specs.Prelude.{◌≡◌, ◌++◌, [], OnOk};
ghost use Rattle.slab_filling.specs.Placing.{free_kinds};
ghost use Rattle.slab_lns.specs.Options.{ways as ways_of, ways_on_open, ways_to_open};

use mill_model::{Kind, MOST_SLABS, Mill};
use slab_filling::{Slab, greatest_size, is_below, is_open, new_slabs, takes};
use std::alloc::AllocError;

#[derive(Clone, Copy, Drop)]
pub(crate) enum Way {
    // On the open slab of this number.
    On(usize),
    // On a slab of this kind, which is opened for it.
    Open(Kind),
}

// Lists the ways: each open slab that takes it; a new one, where it may be and takes it; each free surplus slab that
// does.
pub(crate) fn list_ways(
    mill: &Mill,
    limit: Option<i64>,
    order: u16,
    slabs: &[Slab],
    ways: &mut Vec<Way>,
) -> Result<(), AllocError>
    ensures { OnOk result (ways.new.items ≡ ways_of mill.now limit order slabs.now) }
{
    ways.clear();
    add_open(mill, order, slabs, ways)?;
    let new = Kind::New(greatest_size(mill));
    if is_below(new_slabs(slabs), limit) && takes(mill, new, &[], order) {
        ways.push(Way::Open(new))?;
    }
    add_surplus(mill, order, slabs, ways)
}

fn add_open(mill: &Mill, order: u16, slabs: &[Slab], ways: &mut Vec<Way>) -> Result<(), AllocError>
    ensures { OnOk result
        (ways.new.items ≡ ways.old.items ++ ways_on_open mill.now order slabs.now) }
{
    for k in 0..slabs.len() {
        if slabs[k].takes(mill, order) {
            ways.push(Way::On(k))?;
        }
    }
    Ok(())
}

fn add_surplus(
    mill: &Mill,
    order: u16,
    slabs: &[Slab],
    ways: &mut Vec<Way>,
) -> Result<(), AllocError>
    ensures { OnOk result (ways.new.items
        ≡ ways.old.items ++ ways_to_open mill.now order (free_kinds mill.now slabs.now)) }
{
    let count = mill.yard().len();
    prove!(count <= MOST_SLABS as usize);
    for s in 0..count {
        let kind = Kind::Old(s as u16);
        if takes(mill, kind, &[], order) && !is_open(slabs, s as u16) {
            ways.push(Way::Open(kind))?;
        }
    }
    Ok(())
}
