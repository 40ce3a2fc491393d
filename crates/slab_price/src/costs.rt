//! What slabs cost.
ghost use Rattle.std.specs.Prelude.{◌≡◌, ◌^◌, ◌≤◌, pos, ◌*ℤ◌, unsigned_abs};
ghost use Rattle.mill_model.specs.Columns.{IsInStock};
ghost use Rattle.mill_model.specs.Prices.{most_price};
ghost use Rattle.pricing_laws.specs.Gains.{cost_of};
ghost use Rattle.pricing_laws.specs.Worths.{IsFloor};

use crate::task::Task;
use mill_model::Kind;

impl Task<'_> {
    // The price of so much loss.
    fn loss_price(&self, loss: u16) -> i128
        ensures price { result ≡ self.now.prices.now.lambda *ℤ pos loss }
        ensures small { unsigned_abs result ≤ 2 ^ 79 }
    {
        i128::from(self.prices.lambda()) * i128::from(loss)
    }

    // What a slab costs where nothing lies on it.
    pub(crate) fn cost(&self, kind: Kind) -> i128
        requires { IsInStock self.now.mill.now kind }
        ensures cost { result ≡ cost_of self.now.mill.now self.now.prices.now kind }
        ensures small { unsigned_abs result ≤ 2 ^ 80 }
    {
        i128::from(self.prices.lend().charge(kind)) + self.loss_price(self.mill.size_of(kind))
    }

    // The least that any slab costs beside its loss.
    pub(crate) fn least_charge(&self) -> i128
        ensures least { IsFloor self.now.mill.now self.now.prices.now result }
        ensures small { unsigned_abs result ≤ most_price }
    {
        let mut least = self.prices.mu();
        for &charge in self.prices.sigma() {
            least = least.min(charge);
        }
        i128::from(least)
    }
}
