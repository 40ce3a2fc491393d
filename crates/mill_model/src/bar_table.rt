//! Bars as a table.
ghost use Rattle.std.specs.Prelude.{◌≡◌};
ghost use Rattle.mill_model.specs.BarTable.{is_marked, HaveAPlace, AreMarked};

use crate::numbers::{MOST_ORDERS, MOST_SLABS};

/// Bars as a table, in which one is found at once: for each order a number with a bit for each surplus slab.
#[derive(Drop)]
pub struct BarTable {
    rows: [u64; MOST_ORDERS as usize],
}

impl BarTable {
    /// The table of these bars.
    pub fn new(bars: &[(u16, u16)]) -> BarTable
        requires { HaveAPlace bars.now }
        ensures { AreMarked bars.now result.rows }
    {
        let mut rows = [0; MOST_ORDERS as usize];
        for bar in bars {
            rows[bar.0 as usize] |= 1 << bar.1;
        }
        BarTable { rows }
    }

    /// Whether the order is barred from the surplus slab.
    pub fn has(&self, order: u16, slab: u16) -> bool
        ensures { result ≡ is_marked self.now.rows order slab }
    {
        order < MOST_ORDERS && slab < MOST_SLABS && (self.rows[order as usize] >> slab) & 1 == 1
    }
}
