//! Calls of pricing that a search made, made again. A file tells each by whole numbers: 4, then the prices of loss, of a
//! new slab, of the orders and of the surplus slabs, then how many decisions there are and four numbers for each (0 for a
//! pair or 1 for a put, its first order, its other order or its surplus slab, and 1 for yes), then the excess found, or 0
//! for none. Any other number ends it.

ghost use Rattle.std.specs.Prelude.{◌≡◌, pos, ◌≤ℤ◌, All, IfOk, length};
ghost use Rattle.mill_model.specs.Prices.{IsPrice};

use crate::ends::Ends;
use crate::told::Told;
use loss_table::LossTable;
use mill_model::{Mill, Prices};
use slab_decide::Decisions;
use slab_price::worst;
use std::alloc::{AllocError, Global};

/// Rebuilds the decisions of each call, and prices the columns under them where that is asked for too, so often.
pub fn make_calls(
    alloc: Global,
    mill: &Mill,
    numbers: &[i64],
    prices_too: bool,
    times: u16,
) -> Result<Ends, AllocError> {
    let table = LossTable::new(alloc, mill)?;
    let orders = mill.orders().len() as u16;
    let yard = mill.yard().len() as u16;
    let mut decisions = Decisions::new(alloc, orders, yard)?;
    let mut ends = Ends::new();
    'rounds: for _ in 0..times {
        let mut told = Told::new(numbers);
        'calls: for _ in 0..numbers.len() {
            if told.number() != 4 {
                break 'calls;
            }
            let prices = read_prices(alloc, mill, &mut told)?;
            decide_all(&mut told, orders, yard, &mut decisions);
            let excess = told.number();
            if prices_too {
                let found = match worst(alloc, mill, &table, &decisions, &prices)? {
                    Some(found) => found.excess(),
                    None => 0,
                };
                ends.note(found == i128::from(excess));
            }
        }
    }
    Ok(ends)
}

fn read_prices(alloc: Global, mill: &Mill, told: &mut Told<'_>) -> Result<Prices, AllocError>
    ensures pi { IfOk result (λ p. length p.pi ≡ length mill.now.orders) }
    ensures sigma { IfOk result (λ p. length p.sigma ≡ length mill.now.yard) }
    ensures lambda { IfOk result (λ p. pos 0 ≤ℤ p.lambda) }
{
    let lambda = told.slab_price();
    let mu = told.slab_price();
    let pi = read_worths(alloc, mill.orders().len(), told)?;
    let sigma = read_worths(alloc, mill.yard().len(), told)?;
    Ok(Prices::new(lambda, mu, pi, sigma))
}

fn read_worths(alloc: Global, count: usize, told: &mut Told<'_>) -> Result<Vec<i64>, AllocError>
    ensures prices { IfOk result (λ worths. All IsPrice worths.items) }
    ensures count { IfOk result (λ worths. length worths.items ≡ count) }
{
    let mut worths = Vec::with_capacity(alloc, count)?;
    'worths: for _ in 0..count {
        worths.push(told.price())?;
    }
    Ok(worths)
}

/// Makes the decisions that are told, from nothing.
fn decide_all(told: &mut Told<'_>, orders: u16, yard: u16, decisions: &mut Decisions)
    requires orders { decisions.old.orders ≡ orders }
    requires yard { decisions.old.yard ≡ yard }
    ensures orders { decisions.new.orders ≡ orders }
    ensures yard { decisions.new.yard ≡ yard }
{
    decisions.reset();
    'decisions: for _ in 0..told.count() {
        let is_pair = told.number() == 0;
        let first = told.count();
        let second = told.count();
        let yes = told.number() == 1;
        if is_pair && first < second && second < orders {
            let _ = decisions.pair(first, second, yes);
        } else if !is_pair && first < orders && second < yard {
            let _ = decisions.put(first, second, yes);
        }
    }
}
