//! Covers as a certificate shows them.
ghost use Rattle.std.specs.Prelude.{◌≡◌};

use crate::Share;
use std::marker::Model;

/// A fractional cover over one denominator: it shows that no prices refute where it stands (weak duality).
#[derive(Drop)]
pub struct Shown {
    d: i64,
    shares: Vec<Share>,
}

impl Model for Shown {
    ghost use Rattle.mill_model.specs.Shares.{Shown};

    ghost Value = { Shown };

    ghost view = { λ s. record { d = s.d; shares = s.shares.items } };
}

impl Shown {
    /// The cover of this denominator and these shares.
    pub fn new(d: i64, shares: Vec<Share>) -> Shown
        ensures { result ≡ record { d = d; shares = shares.items } }
    {
        Shown { d, shares }
    }

    /// The denominator.
    pub fn d(&self) -> i64
        ensures { result ≡ self.now.d }
    {
        self.d
    }

    /// The shares in order.
    pub fn shares(&self) -> &[Share]
        ensures { result.now ≡ self.now.shares }
    {
        &self.shares
    }
}
