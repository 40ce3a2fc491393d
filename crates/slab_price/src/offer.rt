//! Whether some orders are a better column than the best so far.
ghost use Rattle.std.specs.Prelude.{◌≡◌, ◌<◌, ◌≤◌, length};
ghost use Rattle.mill_model.specs.declared.kind.Kind.{Kind};
ghost use Rattle.mill_model.specs.Columns.{IsInStock, size_of};
ghost use Rattle.mill_model.specs.LeastSizes.{IsOfLeastSize};
ghost use Rattle.slab_price.specs.Tasks.{problem_of};
ghost use Rattle.pricing_laws.specs.Packs.{IsPack, IsColumn, IsOnNew, IsOnYard};
ghost use Rattle.slab_price.specs.Bests.{IsImprovedIn};

use crate::best::Best;
use crate::task::Task;
use mill_model::Kind;

impl Task<'_> {
    // Takes the orders on a slab that holds them, where that column is allowed and better than the best.
    fn offer_on(&self, kind: Kind, weight: u32, gain: i128, orders: &[u16], best: &mut Best)
        requires pack { IsPack (problem_of self.now) orders.now weight gain }
        requires stock { IsInStock self.now.mill.now kind }
        requires holds { weight ≤ size_of self.now.mill.now kind }
        requires least_size { IsOfLeastSize self.now.mill.now weight kind }
        ensures { IsImprovedIn self.now best.old best.new (IsColumn kind orders.now) }
    {
        let excess = gain - self.cost(kind);
        if excess <= best.excess {
            return;
        }
        if self.mill.has_barred(kind, orders) || !self.decisions.allows(kind, orders) {
            return;
        }
        best.replace(kind, orders, excess);
    }

    // Takes the orders on the least new slab that holds them, where that column is allowed and better than the best.
    fn offer_new(&self, weight: u32, gain: i128, orders: &[u16], best: &mut Best)
        requires { IsPack (problem_of self.now) orders.now weight gain }
        ensures { IsImprovedIn self.now best.old best.new (IsOnNew orders.now) }
    {
        if let Some(size) = self.table.size_for(weight) {
            self.offer_on(Kind::New(size), weight, gain, orders, best);
        }
    }

    // Takes the orders on a surplus slab, where it holds them and that column is allowed and better than the best.
    fn offer_old(&self, slab: u16, weight: u32, gain: i128, orders: &[u16], best: &mut Best)
        requires pack { IsPack (problem_of self.now) orders.now weight gain }
        requires stock { slab < length self.now.mill.now.yard }
        ensures { IsImprovedIn self.now best.old best.new (IsColumn (Kind.Old slab) orders.now) }
    {
        if weight <= u32::from(self.mill.size_of(Kind::Old(slab))) {
            self.offer_on(Kind::Old(slab), weight, gain, orders, best);
        }
    }

    // Takes the orders on the best surplus slab, where that column is allowed and better than the best.
    fn offer_yard(&self, weight: u32, gain: i128, orders: &[u16], best: &mut Best)
        requires { IsPack (problem_of self.now) orders.now weight gain }
        ensures { IsImprovedIn self.now best.old best.new
            (IsOnYard (length self.now.mill.now.yard) orders.now) }
    {
        let count = self.mill.yard().len();
        for slab in 0..count {
            self.offer_old(slab as u16, weight, gain, orders, best);
        }
    }

    // Takes the orders on the best slab, where that column is allowed and better than the best.
    pub(crate) fn offer(&self, weight: u32, gain: i128, orders: &[u16], best: &mut Best)
        requires { IsPack (problem_of self.now) orders.now weight gain }
        ensures { IsImprovedIn self.now best.old best.new (λ c. c.orders ≡ orders.now) }
    {
        self.offer_new(weight, gain, orders, best);
        self.offer_yard(weight, gain, orders, best);
    }
}
