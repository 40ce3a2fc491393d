//! Plans, and how one is judged.
ghost use Rattle.std.specs.Prelude.{◌≡◌};

use crate::judge::{judge_rules, sums};
use crate::{Illegal, Kind, Mill, Sums};
use std::marker::Model;

/// A plan: its slabs, and for each order the number of the slab on which it lies.
#[derive(Drop)]
pub struct Plan {
    kinds: Vec<Kind>,
    place: Vec<u16>,
}

impl Model for Plan {
    ghost use Rattle.mill_model.specs.Plans.{Plan};

    ghost Value = { Plan };

    ghost view = { λ p. record { kinds = p.kinds.items; place = p.place.items } };
}

impl Plan {
    ghost use Rattle.std.specs.Prelude.{Some, IfOk, IfErr, OnErr};
    ghost use Rattle.mill_model.specs.Plans.{IsLegal, sums_of};
    ghost use Rattle.mill_model.specs.Judging.{first_broken};

    /// The plan of these slabs and these places. Any lists make a plan: whether it is legal is told by judging.
    pub fn new(kinds: Vec<Kind>, place: Vec<u16>) -> Plan
        ensures { result ≡ record { kinds = kinds.items; place = place.items } }
    {
        Plan { kinds, place }
    }

    /// The slabs. Calls number them from 0, texts from 1.
    pub fn kinds(&self) -> &[Kind]
        ensures { result.now ≡ self.now.kinds }
    {
        &self.kinds
    }

    /// For each order, in order, the number of its slab.
    pub fn place(&self) -> &[u16]
        ensures { result.now ≡ self.now.place }
    {
        &self.place
    }

    /// The sums of a legal plan, which isn't judged.
    pub fn sums(&self, mill: &Mill) -> Sums
        requires { IsLegal mill.now self.now }
        ensures { result ≡ sums_of mill.now self.now }
    {
        sums(mill, self)
    }

    /// The sums of a legal plan, or the first rule that the plan breaks: of its places, then of each slab in turn.
    pub fn judge(&self, mill: &Mill) -> Result<Sums, Illegal>
        ensures legal { IfOk result
            (λ sums. IsLegal mill.now self.now × (sums ≡ sums_of mill.now self.now)) }
        ensures first { IfErr result (λ rule. first_broken mill.now self.now ≡ Some rule) }
        ensures illegal { OnErr result (¬ IsLegal mill.now self.now) }
    {
        match judge_rules(mill, self) {
            Ok(()) => Ok(sums(mill, self)),
            Err(rule) => Err(rule),
        }
    }
}
