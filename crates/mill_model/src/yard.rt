//! The yard of surplus slabs.
ghost use Rattle.std.specs.Prelude.{◌≡◌};
ghost use Rattle.std.specs.List.{list_any};
ghost use Rattle.mill_model.specs.Mill.{IsYard, is_bar};

use crate::bar_table::BarTable;
use std::marker::Model;

/// The sizes of the surplus slabs that lie in the yard (at most 40, each 1 to 10,000), and its bars (at most 10,000): pairs of
/// an order and a surplus slab on which it mustn't lie.
#[derive(Drop)]
pub struct Yard {
    sizes: Vec<u16>,
    bars: Vec<(u16, u16)>,
    table: BarTable,
}

impl Model for Yard {
    ghost use Rattle.mill_model.specs.Mill.{Yard, IsYard};
    ghost use Rattle.mill_model.specs.BarTable.{AreMarked};

    ghost Value = { Yard };

    ghost view = { λ y. record { sizes = y.sizes.items; bars = y.bars.items } };

    ghost invariant = { λ y. IsYard (record { sizes = y.sizes.items; bars = y.bars.items }) × AreMarked y.bars.items y.table.rows };
}

impl Yard {
    /// A yard of slabs of these sizes (at most 40, each 1 to 10,000), with these bars (at most 10,000): pairs of an order (below
    /// 250) and a surplus slab, each numbered from 0. A bar that is repeated means nothing more.
    pub fn new(sizes: Vec<u16>, bars: Vec<(u16, u16)>) -> Yard
        requires { IsYard (record { sizes = sizes.items; bars = bars.items }) }
        ensures { result ≡ record { sizes = sizes.items; bars = bars.items } }
    {
        let table = BarTable::new(&bars);
        Yard { sizes, bars, table }
    }

    /// The sizes, in the order in which they were given.
    pub fn sizes(&self) -> &[u16]
        ensures value { result.now ≡ self.now.sizes }
        ensures limits { IsYard self.now }
    {
        &self.sizes
    }

    /// The bars, in the order in which they were given, with those that are repeated.
    pub fn bars(&self) -> &[(u16, u16)]
        ensures value { result.now ≡ self.now.bars }
        ensures limits { IsYard self.now }
    {
        &self.bars
    }

    // Whether some bar is of this order and this surplus slab.
    pub(crate) fn is_barred(&self, order: u16, slab: u16) -> bool
        ensures { result ≡ list_any (is_bar order slab) self.now.bars }
    {
        self.table.has(order, slab)
    }
}
