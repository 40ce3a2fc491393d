//! Prices on groups, at their first orders.
ghost use Rattle.std.specs.Prelude.{◌≡◌, ℕ, ◌<◌, ◌≤◌, IfOk, All, length};
ghost use Rattle.mill_model.specs.Columns.{Fits, loss_of};
ghost use Rattle.mill_model.specs.Prices.{IsPrice};
ghost use Rattle.pricing_laws.specs.Groups.{head_of};
ghost use Rattle.pricing_laws.specs.Groupings.{AreBefore};
ghost use Rattle.slab_node.specs.Grouped.{group_column};
ghost use Rattle.slab_node.specs.Stated.{AreAtHeads, only, group_loss, group_count, free_prices};

use crate::kinds::weights_of;
use mill_model::{Kind, Mill, Prices};
use std::alloc::{AllocError, Global};

// Prices on loss, on new slabs and on orders; surplus slabs are free.
pub(crate) fn prices_by(
    alloc: Global,
    mill: &Mill,
    lambda: i64,
    mu: i64,
    pi: Vec<i64>,
) -> Result<Prices, AllocError>
    requires lambda { IsPrice lambda }
    requires mu { IsPrice mu }
    requires pi { All IsPrice pi.items }
    ensures { IfOk result (λ p. p ≡ free_prices mill.now lambda mu pi.items) }
{
    let sigma = vec![in alloc; 0; mill.yard().len()]?;
    Ok(Prices::new(lambda, mu, pi, sigma))
}

// 1 for one group, and 0 for each other.
pub(crate) fn one_group(alloc: Global, heads: &[u16], head: u16) -> Result<Vec<i64>, AllocError>
    requires inside { head < length heads.now }
    requires own { head_of heads.now head ≡ head }
    ensures at { IfOk result (λ pi. AreAtHeads heads.now (only head) pi.items) }
    ensures range { IfOk result (λ pi. All IsPrice pi.items) }
{
    let mut pi = Vec::with_capacity(alloc, heads.len())?;
    for order in 0..heads.len() {
        if order == head as usize {
            pi.push(1)?;
        } else {
            pi.push(0)?;
        }
    }
    Ok(pi)
}

// What each group loses on its slab.
pub(crate) fn losses_of(
    alloc: Global,
    mill: &Mill,
    heads: &[u16],
    kinds: &[Kind],
) -> Result<Vec<i64>, AllocError>
    requires heads { length heads.now ≡ length mill.now.orders }
    requires kinds { length kinds.now ≡ length mill.now.orders }
    requires before { AreBefore heads.now }
    requires fits { (head : ℕ) → head < length mill.now.orders → head_of heads.now head ≡ head
        → Fits mill.now (group_column heads.now kinds.now head) }
    ensures at { IfOk result (λ pi. AreAtHeads heads.now
        (group_loss mill.now heads.now kinds.now) pi.items) }
    ensures range { IfOk result (λ pi. All IsPrice pi.items) }
{
    let count = mill.orders().len();
    let weights = weights_of(alloc, mill, heads)?;
    let mut pi = Vec::with_capacity(alloc, count)?;
    for (order, head) in heads.iter().enumerate() {
        if *head as usize == order {
            let size = mill.size_of(kinds[order]);
            pi.push(i64::from(size) - i64::from(weights[order]))?;
        } else {
            pi.push(0)?;
        }
    }
    Ok(pi)
}

// 1 for each group on a new slab.
pub(crate) fn counts_of(
    alloc: Global,
    heads: &[u16],
    kinds: &[Kind],
) -> Result<Vec<i64>, AllocError>
    requires { length kinds.now ≡ length heads.now }
    ensures at { IfOk result (λ pi. AreAtHeads heads.now (group_count kinds.now) pi.items) }
    ensures range { IfOk result (λ pi. All IsPrice pi.items) }
{
    let mut pi = Vec::with_capacity(alloc, heads.len())?;
    for (order, head) in heads.iter().enumerate() {
        let is_new = matches!(kinds[order], Kind::New(_));
        if *head as usize == order && is_new {
            pi.push(1)?;
        } else {
            pi.push(0)?;
        }
    }
    Ok(pi)
}
