//! The cheapest point.
ghost use Rattle.std.specs.Prelude.{◌≡◌, ◌≤◌, ◌++◌, ◌∷◌, [], List};
ghost use Rattle.mill_model.specs.declared.sums.Sums.{Sums};
ghost use Rattle.slab_tariff.specs.Tariffs.{IsCheapest, IsStaircase, cost_of, most_unit_price};

use mill_model::Sums;

/// The least cost of a point at these prices of a unit of loss and of a new slab, each at most 1,000,000, and the first point
/// that has it. It takes no memory.
pub fn cheapest(points: &[Sums], a: u32, b: u32) -> Option<(u64, Sums)>
    requires points { IsStaircase points.now }
    requires loss { a ≤ most_unit_price }
    requires slab { b ≤ most_unit_price }
    ensures { IsCheapest points.now a b result }
{
    let mut best = None;
    for point in points {
        best = cheaper(best, *point, a, b);
    }
    best
}

// What a point costs.
fn cost_at(point: Sums, a: u32, b: u32) -> u64
    requires loss { a ≤ most_unit_price }
    requires slab { b ≤ most_unit_price }
    ensures { result ≡ cost_of a b point }
{
    u64::from(a) * u64::from(point.loss) + u64::from(b) * u64::from(point.count)
}

// The point with its cost, where it costs less than the best so far.
fn cheaper(best: Option<(u64, Sums)>, point: Sums, a: u32, b: u32) -> Option<(u64, Sums)>
    requires loss { a ≤ most_unit_price }
    requires slab { b ≤ most_unit_price }
    ensures { (points : List Sums) → IsCheapest points a b best → IsCheapest (points ++ point ∷ []) a b result }
{
    let cost = cost_at(point, a, b);
    match best {
        Some((least, _)) if least <= cost => best,
        _ => Some((cost, point)),
    }
}
