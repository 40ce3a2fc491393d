//! The sums of points.
ghost use Rattle.std.specs.Prelude.{◌≡◌};

use mill_model::Sums;
use std::marker::Model;

/// The sums of a certificate's points, in their order.
#[derive(Drop)]
pub struct Points {
    list: Vec<Sums>,
}

impl Model for Points {
    ghost use Rattle.std.specs.Prelude.{List};
    ghost use Rattle.mill_model.specs.declared.sums.Sums.{Sums};

    ghost Value = { List Sums };

    ghost view = { λ p. p.list.items };
}

impl Points {
    /// These sums.
    pub fn new(list: Vec<Sums>) -> Points
        ensures { result ≡ list.items }
    {
        Points { list }
    }

    /// The sums.
    pub fn list(&self) -> &[Sums]
        ensures { result.now ≡ self.now }
    {
        &self.list
    }
}
