//! Limits that plain prices refute, without a search.
ghost use Rattle.std.specs.Prelude.{◌≡◌, ◌≤◌, ◌*◌, ◌↔◌, pos, ◌+ℤ◌, ◌*ℤ◌, ◌<ℤ◌, List, IfOk, IfSome, IfNone, IsTrue, IsSomeAnd, length, replicate};
ghost use Rattle.std.specs.List.{sum};
ghost use Rattle.mill_model.specs.Decisions.{Decision};
ghost use Rattle.mill_model.specs.Prices.{IsPrice, Refutes};
ghost use Rattle.mill_model.specs.Plain.{total_weight, greatest_size, IsPlainlyRefuted, weight_prices};
ghost use Rattle.slab_node.specs.FirstPrices.{IsFirstPlain};
ghost use Rattle.slab_node.specs.Stated.{free_prices};

use mill_model::{Limits, Mill, Prices};
use std::alloc::{AllocError, Global};

// What the surplus slabs hold together.
fn yard_size(mill: &Mill) -> u32
    ensures { result ≡ sum mill.now.yard }
{
    let mut total = 0;
    for size in mill.yard() {
        total += u32::from(*size);
    }
    total
}

// Whether a limit stands and is below 0.
fn is_below_zero(limit: Option<i64>) -> bool
    ensures { IsTrue result ↔ IsSomeAnd limit (λ a. a <ℤ pos 0) }
{
    match limit {
        Some(limit) => limit < 0,
        None => false,
    }
}

// What so many new slabs and the whole yard hold at most.
fn held_by(mill: &Mill, count: i64) -> i128
    ensures { result ≡ count *ℤ pos (greatest_size mill.now) +ℤ pos (sum mill.now.yard) }
{
    i128::from(count) * i128::from(mill.greatest_size()) + i128::from(yard_size(mill))
}

// Whether so few new slabs and the whole yard don't hold the orders.
fn is_too_heavy(mill: &Mill, count: Option<i64>) -> bool
    ensures { IsTrue result ↔ IsSomeAnd count (λ b.
        (b *ℤ pos (greatest_size mill.now) +ℤ pos (sum mill.now.yard)) <ℤ pos (total_weight mill.now)) }
{
    match count {
        Some(count) => held_by(mill, count) < i128::from(mill.total_weight()),
        None => false,
    }
}

// Prices on loss and on new slabs alone.
fn bare_prices(alloc: Global, mill: &Mill, lambda: i64, mu: i64) -> Result<Prices, AllocError>
    requires lambda { IsPrice lambda }
    requires mu { IsPrice mu }
    ensures { IfOk result (λ p. p ≡ free_prices mill.now lambda mu (replicate (length mill.now.orders) (pos 0))) }
{
    let pi = vec![in alloc; 0; mill.orders().len()]?;
    let sigma = vec![in alloc; 0; mill.yard().len()]?;
    Ok(Prices::new(lambda, mu, pi, sigma))
}

// Prices by weight: each order costs what it weighs, and each slab what it holds.
fn weight_prices(alloc: Global, mill: &Mill) -> Result<Prices, AllocError>
    ensures { IfOk result (λ p. p ≡ weight_prices mill.now) }
{
    let mut pi = Vec::with_capacity(alloc, mill.orders().len())?;
    for order in mill.orders() {
        pi.push(i64::from(order.weight))?;
    }
    let mut sigma = Vec::with_capacity(alloc, mill.yard().len())?;
    for size in mill.yard() {
        sigma.push(i64::from(*size))?;
    }
    Ok(Prices::new(0, i64::from(mill.greatest_size()), pi, sigma))
}

// Prices that refute the limits under any decisions, where plain ones do: on a loss or a count below 0, or on more weight than
// the new slabs and the yard hold.
pub(crate) fn plain_prices(
    alloc: Global,
    mill: &Mill,
    limits: Limits,
) -> Result<Option<Prices>, AllocError>
    ensures some { IfOk result (λ answer. IfSome answer
        (λ p. (decisions : List Decision) → Refutes mill.now limits decisions p)) }
    ensures first { IfOk result (λ answer. IfSome answer (IsFirstPlain mill.now limits)) }
    ensures plain { IfOk result (λ answer. IfSome answer (λ _. IsPlainlyRefuted mill.now limits)) }
    ensures none { IfOk result (λ answer. IfNone answer (¬ IsPlainlyRefuted mill.now limits)) }
{
    // It tells that the mill's numbers are within their limits.
    let _limits = mill.sizes();
    if is_below_zero(limits.loss) {
        return Ok(Some(bare_prices(alloc, mill, 1, 0)?));
    }
    if is_below_zero(limits.count) {
        return Ok(Some(bare_prices(alloc, mill, 0, 1)?));
    }
    if is_too_heavy(mill, limits.count) {
        return Ok(Some(weight_prices(alloc, mill)?));
    }
    Ok(None)
}
