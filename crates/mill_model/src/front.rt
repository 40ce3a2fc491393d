//! Whole certificates.
ghost use Rattle.std.specs.Prelude.{◌≡◌};

use crate::{Head, Steps};
use std::marker::Model;

/// A whole certificate: its points, and the steps of the last tree, which leaves no plan of fewer new slabs.
#[derive(Drop)]
pub struct Front {
    head: Head,
    last: Steps,
}

impl Model for Front {
    ghost use Rattle.mill_model.specs.Fronts.{Whole};

    ghost Value = { Whole };

    ghost view = { λ f. record { points = f.head; last = f.last } };
}

impl Front {
    /// The certificate of these parts.
    pub fn new(head: Head, last: Steps) -> Front
        ensures { result ≡ record { points = head; last = last } }
    {
        Front { head, last }
    }

    /// The points.
    pub fn head(&self) -> &Head
        ensures { result.now ≡ self.now.points }
    {
        &self.head
    }

    /// The steps of the last tree.
    pub fn last(&self) -> &Steps
        ensures { result.now ≡ self.now.last }
    {
        &self.last
    }

    /// The points, and the steps of the last tree.
    pub fn into_parts(self) -> (Head, Steps)
        ensures { result ≡ (self.points, self.last) }
    {
        (self.head, self.last)
    }
}
