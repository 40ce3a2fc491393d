//! Dual prices as they are lent, and what is asked of them before any column.
ghost use Rattle.std.specs.Prelude.{◌≡◌, ◌+◌, ◌≤◌, ◌*◌, ◌^◌, ◌↔◌, IsTrue, All, length, unsigned_abs, pos, ◌≤ℤ◌, ◌*ℤ◌};
ghost use Rattle.mill_model.specs.Limits.{number_of};
ghost use Rattle.mill_model.specs.SignedSums.{total_by};
ghost use Rattle.mill_model.specs.Prices.{IsPrice, ArePrices, most_price};

use crate::{Kind, Limits};

/// Dual prices as they are lent, each at most 2^62 in absolute value: what is asked of them before any column.
#[derive(Clone, Copy)]
pub struct LentPrices<'a> {
    /// The price of one unit of loss.
    pub lambda: i64,
    /// The price of one new slab.
    pub mu: i64,
    /// What each order is worth.
    pub pi: &'a [i64],
    /// The price of each surplus slab.
    pub sigma: &'a [i64],
    ghost range: { ArePrices (record { lambda = lambda; mu = mu; pi = pi.now; sigma = sigma.now }) },
}

impl LentPrices<'_> {
    ghost use Rattle.mill_model.specs.Prices.{HasSigns, HasLimits, IsWorth, charge as charge_of};
    ghost use Rattle.mill_model.specs.LentPrices.{prices_lent};

    /// Whether none of the prices of loss, of a new slab and of the surplus slabs is negative.
    pub fn has_signs(&self) -> bool
        ensures { IsTrue result ↔ HasSigns (prices_lent self.now) }
    {
        self.lambda >= 0 && self.mu >= 0 && are_counts(self.sigma)
    }

    /// Whether the price of each limit that is missing is 0.
    pub fn has_limits(&self, limits: Limits) -> bool
        ensures { IsTrue result ↔ HasLimits limits (prices_lent self.now) }
    {
        (limits.loss.is_some() || self.lambda == 0) && (limits.count.is_some() || self.mu == 0)
    }

    /// What a slab costs at these prices, beside its loss: 0 for a surplus slab that has no price.
    pub fn charge(&self, kind: Kind) -> i64
        ensures value { result ≡ charge_of (prices_lent self.now) kind }
        ensures range { IsPrice result }
    {
        match kind {
            Kind::New(_) => self.mu,
            Kind::Old(slab) => self.sigma.get(usize::from(slab)).copied().unwrap_or(0),
        }
    }

    /// Whether the orders are worth more than any slabs within the limits cost.
    pub fn is_worth(&self, limits: Limits) -> bool
        ensures { IsTrue result ↔ IsWorth limits (prices_lent self.now) }
    {
        let limited = product(self.lambda, limits.loss) + product(self.mu, limits.count);
        let cost = limited + total(self.sigma);
        cost < total(self.pi)
    }
}

// Whether none of these is negative.
fn are_counts(prices: &[i64]) -> bool
    ensures { IsTrue result ↔ All (λ q. pos 0 ≤ℤ q) prices.now }
{
    prices.iter().all(|price| *price >= 0)
}

// A price times a limit, and 0 for a limit that is missing.
fn product(price: i64, limit: Option<i64>) -> i128
    requires { IsPrice price }
    ensures value { result ≡ price *ℤ number_of limit }
    ensures small { unsigned_abs result ≤ 2 ^ 125 }
{
    i128::from(price) * i128::from(limit.unwrap_or(0))
}

// The sum of some prices.
fn total(prices: &[i64]) -> i128
    requires { All IsPrice prices.now }
    ensures value { result ≡ total_by (λ q. q) prices.now }
    ensures small { unsigned_abs result + most_price ≤ 2 ^ 126 }
{
    let mut sum = 0;
    for price in prices {
        sum += i128::from(*price);
    }
    sum
}
