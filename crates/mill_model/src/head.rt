//! The points of a certificate.
ghost use Rattle.std.specs.Prelude.{◌≡◌};

use crate::Proved;
use std::marker::Model;

/// The points of a certificate.
#[derive(Drop)]
pub struct Head {
    points: Vec<Proved>,
}

impl Model for Head {
    ghost use Rattle.std.specs.Prelude.{List};
    ghost use Rattle.mill_model.specs.Fronts.{Point};

    ghost Value = { List Point };

    ghost view = { λ h. h.points.items };
}

impl Head {
    /// These points, in this order.
    pub fn new(points: Vec<Proved>) -> Head
        ensures { result ≡ points.items }
    {
        Head { points }
    }

    /// The points in order.
    pub fn points(&self) -> &[Proved]
        ensures { result.now ≡ self.now }
    {
        &self.points
    }

    /// The points in order.
    pub fn into_points(self) -> Vec<Proved>
        ensures { result.items ≡ self }
    {
        self.points
    }
}
