//! Columns of greatest excess that a reader can compute by hand. Loss costs 1 a unit.
ghost use Rattle.std.specs.Prelude.{◌≡◌, pos, ◌≤ℤ◌, All, IsTrue, IfOk, length};
ghost use Rattle.mill_model.specs.Prices.{IsPrice};

use crate::decided::decisions_of;
use crate::mills::{NO_YARD, THREE_COLOURS, THREE_FIVES, mill_of};
use loss_table::LossTable;
use mill_model::{Kind, Prices};
use slab_price::worst;
use std::alloc::{AllocError, Global};
use std::test::Fail;

// A small surplus slab, from which the first order is barred.
const SMALL_SLAB: &str = "1 3 1 1 1";

// A mill, and the prices of a new slab, of the orders and of the surplus slabs.
#[derive(Clone, Copy)]
struct Case {
    orders: &'static str,
    yard: &'static str,
    colours: u16,
    // Whether the first two orders lie apart.
    apart: bool,
    mu: i8,
    pi: &'static [i64],
    sigma: &'static [i64],
}

// The orders of three colours, with the small slab.
fn colours(colours: u16, apart: bool, mu: i8, pi: &'static [i64], sigma: &'static [i64]) -> Case {
    Case {
        orders: THREE_COLOURS,
        yard: SMALL_SLAB,
        colours,
        apart,
        mu,
        pi,
        sigma,
    }
}

// The orders of which two fill a slab, where new slabs are free.
fn fives(apart: bool, pi: &'static [i64]) -> Case {
    Case {
        orders: THREE_FIVES,
        yard: NO_YARD,
        colours: 2,
        apart,
        mu: 0,
        pi,
        sigma: &[],
    }
}

fn are_prices(prices: &[i64]) -> bool
    ensures { IsTrue result → All IsPrice prices.now }
{
    const MOST: u64 = 0x4000_0000_0000_0000;
    prices.iter().all(|price| price.unsigned_abs() <= MOST)
}

fn prices_of(alloc: Global, mu: i8, pi: &[i64], sigma: &[i64]) -> Result<Prices, Fail>
    ensures lambda { IfOk result (λ prices. pos 0 ≤ℤ prices.lambda) }
    ensures pi { IfOk result (λ prices. length prices.pi ≡ length pi.now) }
    ensures sigma { IfOk result (λ prices. length prices.sigma ≡ length sigma.now) }
{
    if !are_prices(pi) || !are_prices(sigma) {
        return Err(Fail::from("prices"));
    }
    let (pi, sigma) = (pi.to_vec(alloc)?, sigma.to_vec(alloc)?);
    Ok(Prices::new(1, i64::from(mu), pi, sigma))
}

// The excess, and how many orders on which kind of slab.
type Excess = (i128, usize, Kind);

fn found(alloc: Global, case: Case) -> Result<Option<Excess>, Fail> {
    let mill = mill_of(alloc, case.orders, case.yard, case.colours)?;
    if case.pi.len() != mill.orders().len() || case.sigma.len() != mill.yard().len() {
        return Err(Fail::from("prices"));
    }
    let prices = prices_of(alloc, case.mu, case.pi, case.sigma)?;
    let pair = if case.apart { Some(false) } else { None };
    let decisions = decisions_of(alloc, &mill, pair, None)?;
    let table = LossTable::new(alloc, &mill)?;
    match worst(alloc, &mill, &table, &decisions, &prices)? {
        Some(found) => Ok(Some((found.excess(), found.orders().len(), found.kind()))),
        None => Ok(None),
    }
}

#[test]
fn the_greatest_excess(rt: HostRuntime) -> Result<(), Fail> {
    let pair = Some((5, 2, Kind::New(9)));
    for (case, wanted) in [
        // three colours on a slab, and two
        (
            colours(3, false, 0, &[4, 4, 4], &[9]),
            Some((12, 3, Kind::New(9))),
        ),
        (colours(2, false, 0, &[4, 4, 4], &[9]), pair),
        // the first two orders apart
        (colours(3, true, 0, &[4, 4, 4], &[9]), pair),
        // the first order is worth most, and barred from the surplus slab
        (
            colours(2, false, 20, &[5, 4, 4], &[0]),
            Some((4, 1, Kind::Old(0))),
        ),
        // an order of negative price stays out
        (colours(3, false, 0, &[-5, 4, 4], &[9]), pair),
        // nothing exceeds what it costs
        (colours(2, false, 20, &[4, 4, 4], &[4]), None),
        // two orders fill a slab
        (fives(false, &[4, 4, 4]), Some((8, 2, Kind::New(10)))),
        (fives(true, &[5, 5, -5]), None),
    ] {
        assert!(rt; found(rt.alloc(), case)? == wanted, "{wanted:?}");
    }
    Ok(())
}
