//! Numbers of lines as the certificate keeps them. Those of good lines fit.
ghost use Rattle.std.specs.Prelude.{◌≡◌, ◌≤◌, ◌≤ℤ◌, ◌∷◌, pos, All, IfOk, drop, length, take};
ghost use Rattle.cert_rules.specs.Numbers.{natural};
ghost use Rattle.cert_view.specs.Number.{IsWithin};
ghost use Rattle.mill_model.specs.Prices.{prices_of};
ghost use Rattle.cert_keep.specs.Building.{built_pair, built_put, built_sums, fit, index16, natural16, orders16};

use cert_view::Nums;
use mill_model::{Ask, Prices, Sums};
use std::alloc::{AllocError, Global};

// A number of 16 bits, or 0 where it has more.
fn fit16(number: i64) -> u16
    requires { pos 0 ≤ℤ number }
    ensures { result ≡ fit 16 (natural number) }
{
    if number < 65_536 { number as u16 } else { 0 }
}

// A loss, or 0 where it has more than 32 bits.
fn fit32(number: i64) -> u32
    requires { pos 0 ≤ℤ number }
    ensures { result ≡ fit 32 (natural number) }
{
    if number < 4_294_967_296 {
        number as u32
    } else {
        0
    }
}

// The order or surplus slab that a number names.
pub(crate) fn index16(number: i64) -> u16
    ensures { result ≡ index16 number }
{
    if 1 <= number { fit16(number - 1) } else { 0 }
}

// A size or a count.
pub(crate) fn natural16(number: i64) -> u16
    ensures { result ≡ natural16 number }
{
    if 0 <= number { fit16(number) } else { 0 }
}

// A loss.
fn natural32(number: i64) -> u32
    ensures { result ≡ fit 32 (natural number) }
{
    if 0 <= number { fit32(number) } else { 0 }
}

// The sums on a point's line.
pub(crate) fn read_sums(numbers: &Nums<'_>) -> Sums
    requires { length numbers.now ≡ 2 }
    ensures { result ≡ built_sums numbers.now }
{
    let loss = natural32(numbers.get(0));
    let count = natural16(numbers.get(1));
    Sums { loss, count }
}

// The question on a `pair` line.
pub(crate) fn read_pair(numbers: &Nums<'_>) -> Ask
    requires { length numbers.now ≡ 2 }
    ensures { result ≡ built_pair numbers.now }
{
    Ask::Pair(index16(numbers.get(0)), index16(numbers.get(1)))
}

// The question on a `put` line.
pub(crate) fn read_put(numbers: &Nums<'_>) -> Ask
    requires { length numbers.now ≡ 2 }
    ensures { result ≡ built_put numbers.now }
{
    Ask::Put(index16(numbers.get(0)), index16(numbers.get(1)))
}

// All numbers of a line.
pub(crate) fn copy_numbers(alloc: Global, numbers: &Nums<'_>) -> Result<Vec<i64>, AllocError>
    ensures value { IfOk result (λ v. v.items ≡ numbers.now) }
    ensures within { IfOk result (λ v. All IsWithin v.items) }
{
    let mut copy = vec![in alloc; 0; numbers.len()]?;
    numbers.copy_to(&mut copy);
    Ok(copy)
}

// The orders that numbers name.
pub(crate) fn list_orders(alloc: Global, numbers: &[i64]) -> Result<Vec<u16>, AllocError>
    ensures { IfOk result (λ v. v.items ≡ orders16 numbers.now) }
{
    let mut orders = Vec::new(alloc);
    for number in numbers {
        orders.push(index16(*number))?;
    }
    Ok(orders)
}

// The prices on a leaf's line, in a mill with so many orders.
pub(crate) fn read_prices(
    alloc: Global,
    orders: usize,
    numbers: &Nums<'_>,
) -> Result<Prices, AllocError>
    requires { 2 ≤ length numbers.now }
    ensures { IfOk result (λ p. p ≡ prices_of orders numbers.now) }
{
    let all = copy_numbers(alloc, numbers)?;
    match all.as_slice() {
        [lambda, mu, rest @ ..] => split_prices(alloc, orders, *lambda, *mu, rest),
        _ => unreachable!(),
    }
}

// The prices of loss and of a new slab, with those of the orders and of the surplus slabs after them.
fn split_prices(
    alloc: Global,
    orders: usize,
    lambda: i64,
    mu: i64,
    rest: &[i64],
) -> Result<Prices, AllocError>
    requires { All IsWithin (lambda ∷ mu ∷ rest.now) }
    ensures { IfOk result (λ p. p ≡ prices_of orders (lambda ∷ mu ∷ rest.now)) }
{
    let pi = keep_first(alloc, orders, rest)?;
    let sigma = keep_after(alloc, orders, rest)?;
    Ok(Prices::new(lambda, mu, pi, sigma))
}

// The first so many numbers, or all.
fn keep_first(alloc: Global, count: usize, numbers: &[i64]) -> Result<Vec<i64>, AllocError>
    ensures { IfOk result (λ v. v.items ≡ take count numbers.now) }
{
    if count < numbers.len() {
        keep(alloc, &numbers[..count])
    } else {
        keep(alloc, numbers)
    }
}

// The numbers after the first so many.
fn keep_after(alloc: Global, count: usize, numbers: &[i64]) -> Result<Vec<i64>, AllocError>
    ensures { IfOk result (λ v. v.items ≡ drop count numbers.now) }
{
    if count < numbers.len() {
        keep(alloc, &numbers[count..])
    } else {
        Ok(Vec::new(alloc))
    }
}

// These numbers, kept.
fn keep(alloc: Global, numbers: &[i64]) -> Result<Vec<i64>, AllocError>
    ensures { IfOk result (λ v. v.items ≡ numbers.now) }
{
    numbers.to_vec(alloc)
}
