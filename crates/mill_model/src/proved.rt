//! Points with their proof.
ghost use Rattle.std.specs.Prelude.{◌≡◌};

use crate::{Plan, Steps, Sums};
use std::marker::Model;

/// A point of a certificate: its sums, a plan that has them, and the steps of a tree that leaves no smaller loss.
#[derive(Drop)]
pub struct Proved {
    sums: Sums,
    plan: Plan,
    steps: Steps,
}

impl Model for Proved {
    ghost use Rattle.mill_model.specs.Fronts.{Point};

    ghost Value = { Point };

    ghost view = { λ p. record { sums = p.sums; plan = p.plan; steps = p.steps } };
}

impl Proved {
    /// The point of these parts.
    pub fn new(sums: Sums, plan: Plan, steps: Steps) -> Proved
        ensures { result ≡ record { sums = sums; plan = plan; steps = steps } }
    {
        Proved { sums, plan, steps }
    }

    /// The sums.
    pub fn sums(&self) -> Sums
        ensures { result ≡ self.now.sums }
    {
        self.sums
    }

    /// The plan.
    pub fn plan(&self) -> &Plan
        ensures { result.now ≡ self.now.plan }
    {
        &self.plan
    }

    /// The steps of the tree.
    pub fn steps(&self) -> &Steps
        ensures { result.now ≡ self.now.steps }
    {
        &self.steps
    }

    /// The sums, the plan and the steps.
    pub fn into_parts(self) -> (Sums, Plan, Steps)
        ensures { result ≡ (self.sums, self.plan, self.steps) }
    {
        (self.sums, self.plan, self.steps)
    }
}
