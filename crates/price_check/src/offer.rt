//! Whether some orders exceed on a slab.
ghost use Rattle.std.specs.Prelude.{◌≡◌, ◌<◌, ◌≤◌, length};
ghost use Rattle.mill_model.specs.declared.kind.Kind.{Kind};
ghost use Rattle.mill_model.specs.Columns.{IsInStock, has_barred, size_of};
ghost use Rattle.mill_model.specs.LeastSizes.{IsOfLeastSize};
ghost use Rattle.price_check.specs.Leaves.{problem_of};
ghost use Rattle.pricing_laws.specs.Packs.{IsPack, IsColumn, IsOnNew, IsOnYard};
ghost use Rattle.price_check.specs.Finds.{IsAnswerIn};

use crate::leaf::Leaf;
use crate::sizes::least_size;
use mill_model::Kind;

impl Leaf<'_> {
    // Whether one of the orders mustn't lie on the slab.
    fn has_barred(&self, kind: Kind, orders: &[u16]) -> bool
        ensures { result ≡ has_barred self.now.mill.now
            (record { kind = kind; orders = orders.now }) }
    {
        let Kind::Old(slab) = kind else {
            return false;
        };
        for &order in orders {
            if self.mill.is_barred(order, slab) {
                return true;
            }
        }
        false
    }

    // A slab that holds the orders, if they exceed on it and that column is allowed.
    fn offer_on(&self, kind: Kind, weight: u32, gain: i128, orders: &[u16]) -> Option<Kind>
        requires pack { IsPack (problem_of self.now) orders.now weight gain }
        requires stock { IsInStock self.now.mill.now kind }
        requires holds { weight ≤ size_of self.now.mill.now kind }
        requires least_size { IsOfLeastSize self.now.mill.now weight kind }
        ensures { IsAnswerIn self.now orders.now result (IsColumn kind orders.now) }
    {
        if gain <= self.cost(kind) {
            return None;
        }
        if self.has_barred(kind, orders) || !self.trail.agrees(kind, orders) {
            return None;
        }
        Some(kind)
    }

    // The least new slab that holds the orders, if they exceed on it and that column is allowed.
    fn offer_new(&self, weight: u32, gain: i128, orders: &[u16]) -> Option<Kind>
        requires { IsPack (problem_of self.now) orders.now weight gain }
        ensures { IsAnswerIn self.now orders.now result (IsOnNew orders.now) }
    {
        let size = least_size(self.mill.sizes(), weight)?;
        self.offer_on(Kind::New(size), weight, gain, orders)
    }

    // A surplus slab, if it holds the orders, they exceed on it and that column is allowed.
    fn offer_old(&self, slab: u16, weight: u32, gain: i128, orders: &[u16]) -> Option<Kind>
        requires pack { IsPack (problem_of self.now) orders.now weight gain }
        requires stock { slab < length self.now.mill.now.yard }
        ensures { IsAnswerIn self.now orders.now result (IsColumn (Kind.Old slab) orders.now) }
    {
        if weight > u32::from(self.size(Kind::Old(slab))) {
            return None;
        }
        self.offer_on(Kind::Old(slab), weight, gain, orders)
    }

    // A surplus slab on which the orders exceed, where that column is allowed.
    fn offer_yard(&self, weight: u32, gain: i128, orders: &[u16]) -> Option<Kind>
        requires { IsPack (problem_of self.now) orders.now weight gain }
        ensures { IsAnswerIn self.now orders.now result
            (IsOnYard (length self.now.mill.now.yard) orders.now) }
    {
        let count = self.mill.yard().len();
        for slab in 0..count {
            let found = self.offer_old(slab as u16, weight, gain, orders);
            if found.is_some() {
                return found;
            }
        }
        None
    }

    // A slab on which the orders exceed, where that column is allowed.
    pub(crate) fn offer(&self, weight: u32, gain: i128, orders: &[u16]) -> Option<Kind>
        requires { IsPack (problem_of self.now) orders.now weight gain }
        ensures { IsAnswerIn self.now orders.now result (λ c. c.orders ≡ orders.now) }
    {
        let found = self.offer_new(weight, gain, orders);
        if found.is_some() {
            return found;
        }
        self.offer_yard(weight, gain, orders)
    }
}
