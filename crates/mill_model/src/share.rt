//! Columns with multipliers.
ghost use Rattle.std.specs.Prelude.{◌≡◌};

use crate::Kind;
use std::marker::Model;

/// A column of a cover with its multiplier: a slab, and the orders that lie on it.
#[derive(Drop)]
pub struct Share {
    times: i64,
    kind: Kind,
    orders: Vec<u16>,
}

impl Model for Share {
    ghost use Rattle.mill_model.specs.Shares.{Share};

    ghost Value = { Share };

    ghost view = { λ s. record { times = s.times; kind = s.kind; orders = s.orders.items } };
}

impl Share {
    /// The share of this multiplier, this slab and these orders.
    pub fn new(times: i64, kind: Kind, orders: Vec<u16>) -> Share
        ensures { result ≡ record { times = times; kind = kind; orders = orders.items } }
    {
        Share {
            times,
            kind,
            orders,
        }
    }

    /// The multiplier, still to be divided by the cover's denominator.
    pub fn times(&self) -> i64
        ensures { result ≡ self.now.times }
    {
        self.times
    }

    /// The slab.
    pub fn kind(&self) -> Kind
        ensures { result ≡ self.now.kind }
    {
        self.kind
    }

    /// The orders on the slab.
    pub fn orders(&self) -> &[u16]
        ensures { result.now ≡ self.now.orders }
    {
        &self.orders
    }
}
