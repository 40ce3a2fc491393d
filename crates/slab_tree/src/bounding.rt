//! One node's turn at a smaller loss limit, which more prices refute.

ghost use Rattle.std.specs.Prelude.{◌≡◌, ◌<◌, ◌≤◌, ◌*◌, ◌^◌, ◌↔◌, IsTrue, IfOk, IfNone, All, length, unsigned_abs, ◌*ℤ◌};
ghost use Rattle.mill_model.specs.Limits.{number_of, AreSmaller};
ghost use Rattle.mill_model.specs.SignedSums.{total_by};
ghost use Rattle.mill_model.specs.Prices.{IsPrice, HasLimits, IsWorth};
ghost use Rattle.mill_model.specs.Plain.{IsPlainlyRefuted};
ghost use Rattle.slab_master.specs.Given.{IsSmall};
ghost use Rattle.slab_relax.specs.PoolCovers.{IsPoolCover};
ghost use Rattle.slab_relax.specs.Tallies.{AreNoLess};
ghost use Rattle.slab_node.specs.Turns.{IsNode, IsTurn, IsRefuted, IfSpread};
ghost use Rattle.slab_tree.specs.Bounding.{IsPaidFor};

use crate::guide::Guide;
use crate::workplace::Workplace;
use mill_model::{Limits, Mill, Prices};
use slab_columns::Pool;
use slab_node::{Tally, Turned, turn};
use std::alloc::{AllocError, Global};

// So often a node's aim is raised before the limits themselves are tried.
const MOST_RAISES: u32 = 20;

// No mill has a loss above this number.
const MOST_LOSS: i64 = 2_500_000;

// One node's turn, first at the loss that is aimed at, where it is smaller than the limit. Prices that refute it may not
// refute the limits: the aim is then raised to the least loss that they leave. Its answer is one for the limits themselves.
pub(crate) fn bounded_turn(
    alloc: Global,
    place: &Workplace<'_>,
    guide: &mut Guide,
    limits: Limits,
    pool: &mut Pool,
    tally: &mut Tally,
) -> Result<Turned, AllocError>
    requires { IsNode place.now.mill.now place.now.table.now place.now.decisions limits pool.old }
    ensures turned { IfOk result (IsTurn place.now.mill.now limits place.now.decisions.list tally.old tally.new) }
    ensures plain { IsPlainlyRefuted place.now.mill.now limits → IfOk result IsRefuted }
    ensures cover { IfOk result (λ t. IfSpread t (IsPoolCover place.now.mill.now limits place.now.decisions.list pool.new.columns)) }
    ensures counters { AreNoLess tally.old tally.new }
    ensures mill { pool.new.mill ≡ place.now.mill.now }
{
    for _ in 0..MOST_RAISES {
        let smaller = smaller_limits(limits, guide.aim());
        match turn(
            alloc,
            place.mill,
            place.table,
            &place.decisions,
            smaller,
            pool,
            tally,
        )? {
            Turned::Refuted(prices) => match left_by(place.mill, &prices, limits) {
                None => return Ok(Turned::Refuted(prices)),
                Some(left) => guide.raise(left),
            },
            turned => return Ok(turned),
        }
    }
    turn(
        alloc,
        place.mill,
        place.table,
        &place.decisions,
        limits,
        pool,
        tally,
    )
}

// The limits with a loss limit that isn't above the aim.
pub(crate) fn smaller_limits(limits: Limits, aim: i64) -> Limits
    requires { IsSmall (number_of limits.loss) }
    ensures smaller { AreSmaller result limits }
    ensures small { IsSmall (number_of result.loss) }
    ensures count { result.count ≡ limits.count }
{
    let aim = aim.clamp(-1, MOST_LOSS);
    let loss = match limits.loss {
        Some(loss) => aim.min(loss),
        None => aim,
    };
    Limits {
        loss: Some(loss),
        count: limits.count,
    }
}

// The least loss limit that refuting prices leave, or none where they refute the limits too.
fn left_by(mill: &Mill, prices: &Prices, limits: Limits) -> Option<i64>
    requires orders { length prices.now.pi ≡ length mill.now.orders }
    requires slabs { length prices.now.sigma ≡ length mill.now.yard }
    ensures { IfNone result (IsPaidFor limits prices.now) }
{
    if mill.orders().len() > 250 || mill.yard().len() > 40 {
        unreachable!();
    }
    if has_limits(limits, prices) && is_worth(limits, prices) {
        return None;
    }
    Some(least_left(prices, limits))
}

// The least loss limit that prices leave, with this count limit.
fn least_left(prices: &Prices, limits: Limits) -> i64
    requires orders { length prices.now.pi ≤ 250 }
    requires slabs { length prices.now.sigma ≤ 40 }
{
    let lambda = prices.lambda();
    let left = total(prices.pi()) - product(prices.mu(), limits.count) - total(prices.sigma());
    if lambda <= 0 || left <= 0 {
        return MOST_LOSS;
    }
    quotient_up(left as u128, lambda as u128)
}

// The quotient of two numbers above 0, rounded up, where it isn't above the greatest loss.
fn quotient_up(left: u128, lambda: u128) -> i64
    requires left { 0 < left }
    requires lambda { 0 < lambda }
{
    let least = (left - 1) / lambda + 1;
    least.min(MOST_LOSS as u128) as i64
}

// Whether the price of a missing limit is 0.
fn has_limits(limits: Limits, prices: &Prices) -> bool
    ensures { IsTrue result ↔ HasLimits limits prices.now }
{
    (limits.loss.is_some() || prices.lambda() == 0) && (limits.count.is_some() || prices.mu() == 0)
}

// Whether the orders are worth more than any slabs within the limits cost.
fn is_worth(limits: Limits, prices: &Prices) -> bool
    requires orders { length prices.now.pi ≤ 250 }
    requires slabs { length prices.now.sigma ≤ 40 }
    ensures { IsTrue result ↔ IsWorth limits prices.now }
{
    let limited = product(prices.lambda(), limits.loss) + product(prices.mu(), limits.count);
    let cost = limited + total(prices.sigma());
    cost < total(prices.pi())
}

// A price times a limit, and 0 for a limit that is missing.
fn product(price: i64, limit: Option<i64>) -> i128
    requires { IsPrice price }
    ensures value { result ≡ price *ℤ number_of limit }
    ensures small { unsigned_abs result ≤ 2 ^ 125 }
{
    i128::from(price) * i128::from(limit.unwrap_or(0))
}

// The sum of some prices.
fn total(prices: &[i64]) -> i128
    requires few { length prices.now ≤ 250 }
    requires range { All IsPrice prices.now }
    ensures value { result ≡ total_by (λ q. q) prices.now }
    ensures small { unsigned_abs result ≤ 250 * 2 ^ 62 }
{
    let mut sum = 0;
    for price in prices {
        sum += i128::from(*price);
    }
    sum
}
