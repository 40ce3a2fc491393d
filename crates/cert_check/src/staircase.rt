//! The sums of the points so far.
ghost use Rattle.std.specs.Prelude.{◌≡◌, ◌≢◌, ◌↔◌, Err, ◌∷◌, [], reverse, length, IfOk, IfSome, IfNone, IsTrue, OnOk};
ghost use Rattle.mill_model.specs.Fronts.{Exceeds, FallsBelow, below};
ghost use Rattle.cert_rules.specs.States.{latest, limits_of};
ghost use Rattle.cert_rules.specs.Slabs.{AreSums, point_rules, sums_of_line};
ghost use Rattle.cert_slabs.specs.Answers.{Answers};
ghost use Rattle.cert_slabs.specs.Tallies.{AreFair, IsFair};
ghost use Rattle.cert_check.specs.Kept.{owner_of};

use crate::Points;
use cert_rules::Why;
use cert_view::Nums;
use mill_model::{Limits, MOST_COUNT, MOST_LOSS, MOST_POINTS, Sums};
use std::alloc::{AllocError, Global};
use std::marker::Model;

/// The sums of points whose losses rise and whose counts fall, the earliest first.
#[derive(Drop)]
pub(crate) struct Staircase {
    list: Vec<Sums>,
}

impl Model for Staircase {
    ghost use Rattle.std.specs.Prelude.{List, vec_capacity};
    ghost use Rattle.mill_model.specs.declared.sums.Sums.{Sums};
    ghost use Rattle.cert_check.specs.Staircases.{IsStaircase};

    ghost Value = { List Sums };

    ghost view = { λ s. s.list.items };

    ghost invariant = { λ s. IsStaircase s.list.items (vec_capacity s.list) };
}

impl Staircase {
    // No point, and the memory for all that can come.
    pub(crate) fn new(alloc: Global) -> Result<Staircase, AllocError>
        ensures { IfOk result (λ s. s ≡ []) }
    {
        let list = Vec::with_capacity(alloc, MOST_POINTS)?;
        Ok(Staircase { list })
    }

    // Takes a line `point`: its sums join the others, or it breaks a rule.
    pub(crate) fn add(&mut self, numbers: &Nums<'_>) -> Result<(), Why>
        requires { length numbers.now ≡ 2 }
        ensures rules { Answers (point_rules (latest (reverse self.old)) numbers.now) result }
        ensures points { OnOk result
            (reverse self.new ≡ sums_of_line numbers.now ∷ reverse self.old) }
        ensures other { result ≢ Err Why.Column }
    {
        let Some(sums) = read_sums(numbers) else {
            return Err(Why::Range);
        };
        if !follows(sums, self.latest()) {
            return Err(Why::Order);
        }
        self.list.push_reserved(sums);
        Ok(())
    }

    // The sums of the latest point.
    pub(crate) fn latest(&self) -> Option<Sums>
        ensures { result ≡ latest (reverse self.now) }
    {
        self.list.last().copied()
    }

    // The limits that the tree of the latest point refutes, or the tree after `done`.
    pub(crate) fn limits(&self, rest: bool) -> Limits
        ensures value { result ≡ limits_of (owner_of rest) (reverse self.now) }
        ensures fair { AreFair result }
    {
        match self.list.as_slice() {
            [] => Limits {
                loss: None,
                count: None,
            },
            [.., last] if rest => Limits {
                loss: None,
                count: one_below(u32::from(last.count)),
            },
            [last] => Limits {
                loss: one_below(last.loss),
                count: None,
            },
            [.., before, last] => Limits {
                loss: one_below(last.loss),
                count: one_below(u32::from(before.count)),
            },
        }
    }

    // The points.
    pub(crate) fn into_points(self) -> Points
        ensures { result ≡ self }
    {
        Points::new(self.list)
    }
}

// The sums on a point's line, if plans can have them.
fn read_sums(numbers: &Nums<'_>) -> Option<Sums>
    requires { length numbers.now ≡ 2 }
    ensures some { IfSome result (λ sums. AreSums numbers.now × (sums ≡ sums_of_line numbers.now)) }
    ensures none { IfNone result (AreSums numbers.now → ⊥) }
{
    let loss = numbers.get(0);
    let count = numbers.get(1);
    if loss < 0 || loss > i64::from(MOST_LOSS) || count < 0 || count > i64::from(MOST_COUNT) {
        return None;
    }
    Some(Sums {
        loss: loss as u32,
        count: count as u16,
    })
}

// Whether the loss lies above that of the point before, and the count below its count.
fn follows(sums: Sums, before: Option<Sums>) -> bool
    ensures { IsTrue result ↔ (Exceeds sums.loss before × FallsBelow sums.count before) }
{
    match before {
        None => true,
        Some(last) => sums.loss > last.loss && sums.count < last.count,
    }
}

// One less than a number.
fn one_below(number: u32) -> Option<i64>
    ensures value { result ≡ below (Some number) }
    ensures fair { IsFair result }
{
    Some(i64::from(number) - 1)
}
