//! Dual prices.
ghost use Rattle.std.specs.Prelude.{◌≡◌};
ghost use Rattle.mill_model.specs.Prices.{ArePrices};
ghost use Rattle.mill_model.specs.LentPrices.{prices_lent};

use crate::LentPrices;
use std::marker::Model;

/// Dual prices: of one unit of loss, of one new slab, of each order and of each surplus slab, each at most 2^62 in absolute value.
#[derive(Drop)]
pub struct Prices {
    lambda: i64,
    mu: i64,
    pi: Vec<i64>,
    sigma: Vec<i64>,
}

impl Model for Prices {
    ghost use Rattle.mill_model.specs.Prices.{Prices, ArePrices};

    ghost Value = { Prices };

    ghost view = { λ p. record { lambda = p.lambda; mu = p.mu; pi = p.pi.items; sigma = p.sigma.items } };

    ghost invariant = { λ p. ArePrices (record { lambda = p.lambda; mu = p.mu; pi = p.pi.items; sigma = p.sigma.items }) };
}

impl Prices {
    /// The prices of one unit of loss, of one new slab, of each order and of each surplus slab, each at most 2^62 in absolute value.
    pub fn new(lambda: i64, mu: i64, pi: Vec<i64>, sigma: Vec<i64>) -> Prices
        requires { ArePrices
            (record { lambda = lambda; mu = mu; pi = pi.items; sigma = sigma.items }) }
        ensures { result ≡ record { lambda = lambda; mu = mu; pi = pi.items; sigma = sigma.items } }
    {
        Prices {
            lambda,
            mu,
            pi,
            sigma,
        }
    }

    /// The prices, lent.
    pub fn lend(&self) -> LentPrices<'_>
        ensures { prices_lent result ≡ self.now }
    {
        LentPrices {
            lambda: self.lambda(),
            mu: self.mu(),
            pi: self.pi(),
            sigma: self.sigma(),
        }
    }

    /// The price of one unit of loss.
    pub fn lambda(&self) -> i64
        ensures value { result ≡ self.now.lambda }
        ensures range { ArePrices self.now }
    {
        self.lambda
    }

    /// The price of one new slab.
    pub fn mu(&self) -> i64
        ensures value { result ≡ self.now.mu }
        ensures range { ArePrices self.now }
    {
        self.mu
    }

    /// What each order is worth.
    pub fn pi(&self) -> &[i64]
        ensures value { result.now ≡ self.now.pi }
        ensures range { ArePrices self.now }
    {
        &self.pi
    }

    /// The price of each surplus slab.
    pub fn sigma(&self) -> &[i64]
        ensures value { result.now ≡ self.now.sigma }
        ensures range { ArePrices self.now }
    {
        &self.sigma
    }
}
