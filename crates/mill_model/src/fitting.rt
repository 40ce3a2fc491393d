//! What may lie on one slab: its colours and its bars.
ghost use Rattle.std.specs.Prelude.{◌≡◌, nat_le};
ghost use Rattle.mill_model.specs.Columns.{colours_of, column_of, has_barred as has_barred_order, is_barred as is_barred_order};

use crate::colour_set::ColourSet;
use crate::{Kind, Mill};

impl Mill {
    /// Whether these orders have at most as many different colours as the orders on one slab may have.
    pub fn has_few_colours(&self, orders: &[u16]) -> bool
        ensures { result ≡ nat_le (colours_of self.now orders.now) self.now.colour_limit }
    {
        let limit = self.colour_limit();
        let mut colours = ColourSet::new();
        for order in orders {
            if !colours.add(self.colour_of(*order), limit) {
                return false;
            }
        }
        true
    }

    /// Whether an order mustn't lie on a slab of this kind: no order is barred from a new one.
    pub fn is_barred_from(&self, order: u16, kind: Kind) -> bool
        ensures { result ≡ is_barred_order self.now order kind }
    {
        match kind {
            Kind::New(_) => false,
            Kind::Old(slab) => self.is_barred(order, slab),
        }
    }

    /// Whether one of these orders mustn't lie on a slab of this kind.
    pub fn has_barred(&self, kind: Kind, orders: &[u16]) -> bool
        ensures { result ≡ has_barred_order self.now (column_of kind orders.now) }
    {
        let Kind::Old(slab) = kind else {
            return false;
        };
        for &order in orders {
            if self.is_barred(order, slab) {
                return true;
            }
        }
        false
    }
}
