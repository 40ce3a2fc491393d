//! Orders that together are worth no more than any slab costs.
ghost use Rattle.std.specs.Prelude.{◌≡◌, ◌<◌, ◌≤◌, pos, ◌≤ℤ◌, unsigned_abs, length};
ghost use Rattle.std.specs.Bool.{OnTrue};
ghost use Rattle.mill_model.specs.Columns.{order_at};
ghost use Rattle.mill_model.specs.Prices.{NoneExceeds, most_price, price_at};

use crate::ends::room_of;
use crate::leaf::Leaf;

impl Leaf<'_> {
    // What an order adds at most to the worth of a column: its price, or nothing where that is negative or where the order
    // is heavier than any slab.
    fn most_worth(&self, order: usize, room: u16) -> i128
        requires { order < length self.now.mill.now.orders }
        ensures sign { pos 0 ≤ℤ result }
        ensures most { (order_at self.now.mill.now order).weight ≤ room
            → price_at self.now.quote.now.pi order ≤ℤ result }
        ensures small { unsigned_abs result ≤ most_price }
    {
        if self.mill.orders()[order].weight > room {
            return 0;
        }
        i128::from(self.quote.pi()[order].max(0))
    }

    // Whether the orders that some slab holds are together worth no more than any slab charges: then no column exceeds,
    // whatever its colours and the decisions.
    pub(crate) fn is_cheap(&self) -> bool
        ensures { OnTrue result (NoneExceeds self.now.mill.now self.now.trail.now.decisions
            self.now.quote.now) }
    {
        let room = room_of(self.mill);
        let mut worth: i128 = 0;
        let mut at = self.mill.orders().len();
        while at > 0 {
            at -= 1;
            worth += self.most_worth(at, room);
        }
        worth <= self.least_charge()
    }
}
