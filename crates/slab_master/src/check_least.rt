//! The test of least cost.

ghost use Rattle.std.specs.Prelude.{ℕ, ◌≡◌, ◌<◌, ◌≤◌, ℤ, pos, ◌≤ℤ◌, ◌*ℤ◌, unsigned_abs, length, All, IfSome, IsTrue, slice_index_or, Vec};
ghost use Rattle.std.specs.Global.{Global};
ghost use Rattle.slab_counter.specs.Counter.{Rose};
ghost use Rattle.slab_master.specs.Given.{Entry, columns_of};
ghost use Rattle.slab_master.specs.Sums.{number_at, product_of, right_product, cost_sum};
ghost use Rattle.slab_master.specs.Denominators.{IsDenominator, StandsOver};
ghost use Rattle.slab_master.specs.Least.{AreDualPrices, IsLeast};
ghost use Rattle.slab_master.specs.Problems.{given_of};

use crate::check::{Tested, column_product, right_total, signs_hold, term, test_spread};
use crate::problem::Problem;
use slab_frac::{Frac, Wides, scale_all};

// What multipliers cost, or none beyond 128 bits.
fn cost_total(multipliers: &[i64], costs: &[i64]) -> Option<i128>
    requires { length multipliers.now ≡ length costs.now }
    ensures { IfSome result (λ z. z ≡ cost_sum multipliers.now costs.now) }
{
    let mut total: i128 = 0;
    for (j, cost) in costs.iter().enumerate() {
        total = total.checked_add(term(multipliers[j], *cost))?;
    }
    Some(total)
}

// Whether the product with every column is at most its cost, times the denominator.
fn costs_hold(numbers: &[i64], columns: &[Vec<(u16, i64)>], costs: &[i64], denominator: i64) -> bool
    requires within { All (λ c. All (λ e. e.0 < length numbers.now) c.items) columns.now }
    requires costs { length costs.now ≡ length columns.now }
    ensures { IsTrue result → (j : ℕ) (c : Vec Entry Global) → j < length columns.now → product_of numbers.now (slice_index_or columns.now j c).items ≤ℤ (number_at costs.now j *ℤ denominator) }
{
    for (j, column) in columns.iter().enumerate() {
        match column_product(numbers, column.as_slice()) {
            Some(product) if product <= term(costs[j], denominator) => {}
            _ => return false,
        }
    }
    true
}

// Tests dual prices, one per row, against the rows, columns and costs. `scaled` is room for a whole number per row.
fn test_duals(
    problem: &Problem<'_>,
    prices: &[Frac],
    scaled: &mut [i64],
    wides: &mut Wides,
) -> Tested
    requires costs { length problem.now.costs.now ≡ length problem.now.columns.now }
    requires prices { length prices.now ≡ length problem.now.rows.now }
    requires scaled { length scaled.old ≡ length problem.now.rows.now }
    ensures grows { wides.old ≤ wides.new }
    ensures holds { (e : ℤ) → result ≡ Tested.Holds e → AreDualPrices problem.now.rows.now (columns_of problem.now.columns.now) problem.now.costs.now prices.now }
    ensures scaled { (e : ℤ) → result ≡ Tested.Holds e → StandsOver e prices.now scaled.new }
    ensures wide { result ≡ Tested.Wide → Rose wides.old wides.new }
{
    let Some(denominator) = scale_all(prices, wides, scaled) else {
        return Tested::Wide;
    };
    if signs_hold(scaled, problem.rows)
        && costs_hold(scaled, problem.columns, problem.costs, denominator)
    {
        return Tested::Holds(denominator);
    }
    Tested::Fails
}

// Whether `left / denominator` and `right / other` are one number, and neither is below 0.
fn is_one_number(left: i128, denominator: i64, right: i128, other: i64) -> bool
    requires denominator { IsDenominator denominator }
    requires other { IsDenominator other }
    ensures { IsTrue result → left *ℤ other ≡ right *ℤ denominator }
{
    if left < 0 || right < 0 {
        return false;
    }
    let below = denominator.unsigned_abs() as u128;
    let other_below = other.unsigned_abs() as u128;
    let left = left as u128;
    let right = right as u128;
    left / below == right / other_below && left % below * other_below == right % other_below * below
}

// Whether the prices are worth what the multipliers cost, each in whole numbers over its denominator.
fn is_worth(
    problem: &Problem<'_>,
    denominator: i64,
    multipliers: &[i64],
    other: i64,
    prices: &[i64],
) -> bool
    requires denominator { IsDenominator denominator }
    requires other { IsDenominator other }
    requires costs { length multipliers.now ≡ length problem.now.costs.now }
    requires prices { length prices.now ≡ length problem.now.rows.now }
    ensures { IsTrue result → right_product prices.now problem.now.rows.now *ℤ denominator ≡ cost_sum multipliers.now problem.now.costs.now *ℤ other }
{
    match (
        right_total(prices, problem.rows),
        cost_total(multipliers, problem.costs),
    ) {
        (Some(worth), Some(cost)) => is_one_number(worth, other, cost, denominator),
        _ => false,
    }
}

// Tests multipliers and prices of least cost. `multipliers` is room for a whole number per column, `numbers` for one per row.
pub(crate) fn test_least(
    problem: &Problem<'_>,
    x: &[Frac],
    y: &[Frac],
    multipliers: &mut [i64],
    numbers: &mut [i64],
    wides: &mut Wides,
) -> Tested
    requires costs { length problem.now.costs.now ≡ length problem.now.columns.now }
    requires x { length x.now ≡ length problem.now.columns.now }
    requires y { length y.now ≡ length problem.now.rows.now }
    requires multipliers { length multipliers.old ≡ length problem.now.columns.now }
    requires numbers { length numbers.old ≡ length problem.now.rows.now }
    ensures grows { wides.old ≤ wides.new }
    ensures holds { (d : ℤ) → result ≡ Tested.Holds d → IsLeast (given_of problem.now) problem.now.costs.now x.now y.now }
    ensures wide { result ≡ Tested.Wide → Rose wides.old wides.new }
{
    let denominator = match test_spread(problem, x, multipliers, wides) {
        Tested::Holds(denominator) => denominator,
        Tested::Fails => return Tested::Fails,
        Tested::Wide => return Tested::Wide,
    };
    let other = match test_duals(problem, y, numbers, wides) {
        Tested::Holds(other) => other,
        Tested::Fails => return Tested::Fails,
        Tested::Wide => return Tested::Wide,
    };
    if is_worth(problem, denominator, multipliers, other, numbers) {
        return Tested::Holds(denominator);
    }
    Tested::Fails
}
