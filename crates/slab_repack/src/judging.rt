//! Plans that are judged before they are answered.

ghost use Rattle.std.specs.Prelude.{ℕ, ◌≡◌, ◌<◌, ◌^◌, ◌↔◌, ◌++◌, ◌∷◌, List, [], pos, Some, None, IfSome, IsSome, IsTrue};
ghost use Rattle.mill_model.specs.Limits.{AtMost, IsWithin};
ghost use Rattle.slab_repack.specs.FoundPlans.{AreNumberedBelow, AreNumberedSoFar, AreUsed, IsFoundPlan};

use mill_model::{Limits, Mill, Plan, Sums};

/// The plan, exactly where it is legal, in order and within the limits.
pub fn judged(mill: &Mill, plan: Plan, limits: Limits) -> Option<Plan>
    ensures found { IfSome result (IsFoundPlan mill.now limits) }
    ensures same { IfSome result (λ found. found ≡ plan) }
    ensures whole { IsFoundPlan mill.now limits plan → IsSome result }
{
    if is_found(mill, &plan, limits) {
        return Some(plan);
    }
    None
}

#[tactic(auto, using(crate::proofs::Numbering::used_slabs))]
fn is_found(mill: &Mill, plan: &Plan, limits: Limits) -> bool
    ensures { IsTrue result ↔ IsFoundPlan mill.now limits plan.now }
{
    match plan.judge(mill) {
        Ok(sums) => is_within(sums, limits) && are_numbered(plan.place(), plan.kinds().len()),
        Err(_) => false,
    }
}

fn is_within(sums: Sums, limits: Limits) -> bool
    ensures { IsTrue result ↔ IsWithin sums limits }
{
    is_at_most(sums.loss, limits.loss) && is_at_most(u32::from(sums.count), limits.count)
}

fn is_at_most(number: u32, limit: Option<i64>) -> bool
    ensures { IsTrue result ↔ AtMost (Some (pos number)) limit }
{
    match limit {
        Some(limit) => i64::from(number) <= limit,
        None => true,
    }
}

// Whether so many slabs, which all have orders, are numbered by their least order.
#[tactic(auto, using(crate::proofs::Numbering::none_numbered, crate::proofs::Numbering::fewer_numbered))]
fn are_numbered(place: &[u16], slabs: usize) -> bool
    requires { AreUsed place.now slabs }
    ensures { IsTrue result ↔ AreNumberedBelow place.now slabs }
{
    let mut next = 0;
    for slab in place {
        match number_after(*slab, next) {
            Some(after) => next = after,
            None => return false,
        }
    }
    next >= slabs
}

// The next number after one more place, where that is of a slab with a number, or of the next one.
#[tactic(auto, using(crate::proofs::Numbering::known_place, crate::proofs::Numbering::next_place))]
fn number_after(slab: u16, next: usize) -> Option<usize>
    ensures next { IfSome result (λ after. (xs : List ℕ) → AreNumberedSoFar xs next → AreNumberedSoFar (xs ++ slab ∷ []) after) }
    ensures beyond { result ≡ None → next < slab }
{
    let slab = usize::from(slab);
    if slab < next {
        return Some(next);
    }
    if slab == next {
        return Some(next + 1);
    }
    None
}
