//! The column that pricing finds.
ghost use Rattle.std.specs.Prelude.{◌≡◌};

use mill_model::Kind;
use std::marker::Model;

/// A column with its excess: what its orders are worth, less the price of its loss and the charge of its slab.
#[derive(Drop)]
pub struct Found {
    kind: Kind,
    orders: Vec<u16>,
    excess: i128,
}

impl Model for Found {
    ghost use Rattle.slab_price.specs.Found.{Found};

    ghost Value = { Found };

    ghost view = { λ f. record { kind = f.kind; orders = f.orders.items; excess = f.excess } };
}

impl Found {
    /// A column, by its kind of slab and its orders, with its excess.
    pub fn new(kind: Kind, orders: Vec<u16>, excess: i128) -> Found
        ensures { result ≡ record { kind = kind; orders = orders.items; excess = excess } }
    {
        Found {
            kind,
            orders,
            excess,
        }
    }

    /// The kind of slab.
    pub fn kind(&self) -> Kind
        ensures { result ≡ self.now.kind }
    {
        self.kind
    }

    /// The orders, rising.
    pub fn orders(&self) -> &[u16]
        ensures { result.now ≡ self.now.orders }
    {
        &self.orders
    }

    /// The excess.
    pub fn excess(&self) -> i128
        ensures { result ≡ self.now.excess }
    {
        self.excess
    }
}
