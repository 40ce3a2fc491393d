//! Turns of nodes that a reader can decide by hand. Where decisions settle a node, the prices that refute it are stated.
ghost use Rattle.std.specs.Prelude.{◌≡◌, IfOk};
ghost use Rattle.mill_model.specs.Limits.{number_of};
ghost use Rattle.slab_master.specs.Given.{IsSmall};

use crate::decided::decisions_of;
use crate::mills::{NO_YARD, THREE_FIVES, TWO_FIVES, mill_of};
use loss_table::LossTable;
use mill_model::{Ask, Limits, Mill, Plan, Prices};
use slab_columns::Pool;
use slab_node::{Tally, Turned, turn};
use std::alloc::{AllocError, Global};
use std::test::Fail;

// No limit.
const FREE: i8 = -1;

// A mill, what is decided of the first two orders, and of the first order and the surplus slab, and the limits.
#[derive(Clone, Copy, Debug)]
struct Case {
    orders: &'static str,
    yard: &'static str,
    colours: u16,
    pair: Option<bool>,
    put: Option<bool>,
    loss: i8,
    count: i8,
}

// What a turn comes to.
#[derive(Clone, Copy)]
enum Came {
    // Some prices.
    Refuted,
    // Prices on loss and on a new slab.
    By(i64, i64),
    // Prices on loss, on a new slab, on each order, and on each surplus slab.
    Stated(i64, i64, &'static [i64], &'static [i64]),
    // A legal plan of this loss and this count.
    InBox(u32, u16),
    // The ask of a cover.
    Spread(Ask),
}

// Nothing is decided, and there is no surplus slab.
fn free(orders: &'static str, loss: i8, count: i8) -> Case {
    Case {
        orders,
        yard: NO_YARD,
        colours: 2,
        pair: None,
        put: None,
        loss,
        count,
    }
}

// The first two orders are decided.
fn paired(orders: &'static str, together: bool, loss: i8, count: i8) -> Case {
    let mut case = free(orders, loss, count);
    case.pair = Some(together);
    case
}

// One colour on a slab, and the two orders together.
fn mixed() -> Case {
    let mut case = paired("1 10 2 2 5 1 5 2", true, FREE, FREE);
    case.colours = 1;
    case
}

// One order, decided to lie on a surplus slab of size 8.
fn on_surplus(yard: &'static str) -> Case {
    let mut case = free("1 10 1 1 5 1", FREE, FREE);
    case.yard = yard;
    case.put = Some(true);
    case
}

// The limit that a number of a case stands for.
fn limit_of(number: i8) -> Option<i64>
    ensures { IsSmall (number_of result) }
{
    if number < 0 {
        return None;
    }
    Some(i64::from(number))
}

fn has_risen(tally: &Tally) -> bool {
    tally.wides.count() > 0 || tally.stalls.count() > 0 || tally.fulls.count() > 0
}

fn has_sums(mill: &Mill, plan: &Plan, loss: u32, count: u16) -> bool {
    match plan.judge(mill) {
        Ok(sums) => sums.loss == loss && sums.count == count,
        Err(_illegal) => false,
    }
}

fn are(prices: &Prices, lambda: i64, mu: i64) -> bool {
    prices.lambda() == lambda && prices.mu() == mu
}

fn is(mill: &Mill, turned: &Turned, came: Came) -> bool {
    match (turned, came) {
        (Turned::Refuted(_), Came::Refuted) => true,
        (Turned::Refuted(prices), Came::By(lambda, mu)) => are(prices, lambda, mu),
        (Turned::Refuted(prices), Came::Stated(lambda, mu, pi, sigma)) => {
            are(prices, lambda, mu) && prices.pi() == pi && prices.sigma() == sigma
        }
        (Turned::InBox(plan), Came::InBox(loss, count)) => has_sums(mill, plan, loss, count),
        (Turned::Spread(_cover, ask), Came::Spread(wanted)) => *ask == wanted,
        _ => false,
    }
}

// Whether a turn on a new pool comes to this, with no counter raised.
fn comes_to(alloc: Global, case: Case, came: Came) -> Result<bool, Fail> {
    let mill = mill_of(alloc, case.orders, case.yard, case.colours)?;
    let mut tally = Tally::new();
    let turned = turned(alloc, &mill, case, &mut tally)?;
    Ok(!has_risen(&tally) && is(&mill, &turned, came))
}

fn turned(alloc: Global, mill: &Mill, case: Case, tally: &mut Tally) -> Result<Turned, AllocError> {
    let table = LossTable::new(alloc, mill)?;
    let decisions = decisions_of(alloc, mill, case.pair, case.put)?;
    let limits = Limits {
        loss: limit_of(case.loss),
        count: limit_of(case.count),
    };
    let mut pool = Pool::new(alloc, mill)?;
    turn(alloc, mill, &table, &decisions, limits, &mut pool, tally)
}

#[test]
fn a_turn_comes_to(rt: HostRuntime) -> Result<(), Fail> {
    let first = Came::Spread(Ask::Pair(0, 1));
    for (case, came) in [
        (free(THREE_FIVES, 4, FREE), first),
        (paired(THREE_FIVES, true, 4, FREE), Came::Refuted),
        // an order that fills a slab, and three of which two fill one
        (
            free("1 10 1 4 10 1 5 1 5 1 5 1", 4, FREE),
            Came::Spread(Ask::Pair(1, 2)),
        ),
        (free(TWO_FIVES, FREE, FREE), Came::InBox(0, 1)),
        (free("1 4 1 1 5 1", FREE, FREE), Came::By(0, 0)),
        (free(THREE_FIVES, FREE, 1), Came::By(0, 10)),
        // from here on the decisions settle the node
        (
            paired("1 9 1 2 5 1 5 1", true, FREE, FREE),
            Came::Stated(0, 0, &[1, 0], &[]),
        ),
        (mixed(), Came::Stated(0, 0, &[1, 0], &[])),
        (on_surplus("1 8 1 1 1"), Came::Stated(0, 0, &[1], &[0])),
        (
            paired(TWO_FIVES, false, 9, 2),
            Came::Stated(1, 0, &[5, 5], &[]),
        ),
        (
            paired(TWO_FIVES, false, 10, 1),
            Came::Stated(0, 1, &[1, 1], &[]),
        ),
        (paired(TWO_FIVES, false, 10, 2), Came::InBox(10, 2)),
        (on_surplus("1 8"), Came::InBox(3, 0)),
    ] {
        assert!(rt; comes_to(rt.alloc(), case, came)?, "{case:?}");
    }
    Ok(())
}
