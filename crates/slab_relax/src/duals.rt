//! The master's numbers as prices of the mill.
ghost use Rattle.std.specs.Prelude.{◌≡◌, ◌≤◌, ◌+◌, ◌^◌, IfOk, IfSome, IfNone, map, length, unsigned_abs};
ghost use Rattle.slab_counter.specs.Counter.{Rose};
ghost use Rattle.slab_frac.specs.Scaled.{AreInRange};
ghost use Rattle.slab_master.specs.Prices.{ArePrices};
ghost use Rattle.slab_relax.specs.Duals.{turned, price_of, prices_of};
ghost use Rattle.slab_relax.specs.Rows.{row_count};
ghost use Rattle.slab_relax.specs.Masters.{AreFarkas};

use crate::restricted::Restricted;
use mill_model::{Limits, Mill, Prices};
use slab_frac::{Frac, Wides, scale_all};
use std::alloc::{AllocError, Global};

// A number with its sign turned.
fn turned(number: i64) -> i64
    requires { unsigned_abs number ≤ 2 ^ 62 }
    ensures { result ≡ turned number }
{
    -number
}

// The price of a limit, none where it is missing.
fn price_of(limit: Option<i64>, number: i64) -> i64
    requires { unsigned_abs number ≤ 2 ^ 62 }
    ensures { result ≡ price_of limit number }
{
    match limit {
        Some(_limit) => turned(number),
        None => 0,
    }
}

// The numbers with their signs turned.
fn all_turned(alloc: Global, numbers: &[i64]) -> Result<Vec<i64>, AllocError>
    requires { AreInRange numbers.now }
    ensures { IfOk result (λ turns. turns.items ≡ map turned numbers.now) }
{
    let mut turns = Vec::with_capacity(alloc, numbers.len())?;
    for number in numbers {
        turns.push(turned(*number))?;
    }
    Ok(turns)
}

// One number per row as prices.
fn prices_of(
    alloc: Global,
    mill: &Mill,
    limits: Limits,
    numbers: &[i64],
) -> Result<Prices, AllocError>
    requires size { length numbers.now ≡ row_count mill.now }
    requires range { AreInRange numbers.now }
    ensures { IfOk result (λ p. p ≡ prices_of mill.now limits numbers.now) }
{
    let first = mill.orders().len();
    let second = first + mill.yard().len();
    let pi = Vec::from_slice(alloc, &numbers[..first])?;
    let sigma = all_turned(alloc, &numbers[first..second])?;
    let lambda = price_of(limits.loss, numbers[second]);
    let mu = price_of(limits.count, numbers[second + 1]);
    Ok(Prices::new(lambda, mu, pi, sigma))
}

impl Restricted {
    // The master's prices as prices of the mill, or none where a number left its range.
    pub(crate) fn prices(
        &self,
        alloc: Global,
        mill: &Mill,
        limits: Limits,
        list: &[Frac],
        wides: &mut Wides,
    ) -> Result<Option<Prices>, AllocError>
        requires rows { length self.now.master.rows ≡ row_count mill.now }
        requires prices { ArePrices self.now.master.rows self.now.master.columns list.now }
        ensures some { IfOk result (λ answer. IfSome answer
            (AreFarkas mill.now limits self.now.master)) }
        ensures none { IfOk result (λ answer. IfNone answer (Rose wides.old wides.new)) }
        ensures grows { wides.old ≤ wides.new }
    {
        let mut numbers = vec![in alloc; 0; list.len()]?;
        let Some(_denominator) = scale_all(list, wides, &mut numbers) else {
            return Ok(None);
        };
        Ok(Some(prices_of(alloc, mill, limits, &numbers)?))
    }
}
