//! A node whose decisions are settled.
ghost use Rattle.std.specs.Prelude.{◌≡◌, ◌≢◌, ℕ, ◌<◌, pos, ◌<ℤ◌, IfOk, IfSome, IfNone, IsSomeAnd, Some, length, slice_index};
ghost use Rattle.std.specs.Bool.{OnTrue, OnFalse};
ghost use Rattle.mill_model.specs.Limits.{AtMost};
ghost use Rattle.mill_model.specs.Plans.{IsLegal};
ghost use Rattle.mill_model.specs.Judging.{first_broken};
ghost use Rattle.slab_relax.specs.AtNodes.{RefutesAt};
ghost use Rattle.slab_node.specs.AtNodes.{IsInBoxAt, IsFirstStatedAt};
ghost use Rattle.slab_node.specs.FirstPrices.{AreStated, StatesMisfit};
ghost use Rattle.slab_node.specs.Misfits.{slab_number};
ghost use Rattle.slab_node.specs.Settlements.{IsSettledNode, IsSettlement, sums_by};
ghost use Rattle.slab_node.specs.Stated.{group_loss, group_count};
ghost use Rattle.slab_node.specs.Turns.{IfRefuted, IfInBox, IsClosed};

use crate::Turned;
use crate::settlement::Settlement;
use crate::stated::{counts_of, losses_of, one_group, prices_by};
use mill_model::{Illegal, Prices, Sums};
use slab_relax::Node;
use std::alloc::{AllocError, Global};

// Whether a number is above a limit, where that stands.
fn exceeds(number: u32, limit: Option<i64>) -> bool
    ensures above { OnTrue result (IsSomeAnd limit (λ a. a <ℤ pos number)) }
    ensures within { OnFalse result (AtMost (Some (pos number)) limit) }
{
    match limit {
        Some(limit) => i64::from(number) > limit,
        None => false,
    }
}

// The slab that a rule is about, if it is about one.
fn slab_number(rule: Illegal) -> Option<u16>
    ensures { result ≡ slab_number rule }
{
    match rule {
        Illegal::Places => None,
        Illegal::Place(_order) => None,
        Illegal::Empty(slab) => Some(slab),
        Illegal::Size(slab) => Some(slab),
        Illegal::Yard(slab) => Some(slab),
        Illegal::Twice(slab) => Some(slab),
        Illegal::Load(slab) => Some(slab),
        Illegal::Colours(slab) => Some(slab),
        Illegal::Barred(slab) => Some(slab),
    }
}

// The first order on a slab, if it has one.
fn first_order(place: &[u16], slab: u16) -> Option<usize>
    ensures some { IfSome result (λ o. (o < length place.now) × (slice_index place.now o ≡ slab)) }
    ensures none { IfNone result ((o : ℕ) → o < length place.now → slice_index place.now o ≢ slab) }
{
    place.iter().position(|there| *there == slab)
}

// Where the plan breaks a rule, the first group that breaks one fits no slab that it may lie on: it is worth 1, and no column has it.
fn misfit(
    alloc: Global,
    node: &Node<'_>,
    settlement: &Settlement,
    rule: Illegal,
) -> Result<Prices, AllocError>
    requires settlement { IsSettlement node.now settlement.now }
    requires broken { first_broken node.now.mill.now settlement.now.plan ≡ Some rule }
    ensures refutes { IfOk result (RefutesAt node.now) }
    ensures stated { IfOk result (StatesMisfit node.now.mill.now settlement.now.heads.items
        settlement.now.plan rule) }
{
    let slab = match slab_number(rule) {
        Some(slab) => slab,
        None => unreachable!(),
    };
    let order = match first_order(settlement.plan.place(), slab) {
        Some(order) => order,
        None => unreachable!(),
    };
    let head = settlement.heads[order];
    let pi = one_group(alloc, &settlement.heads, head)?;
    prices_by(alloc, node.mill, 0, 0, pi)
}

// Where the plan loses more than the limit, each group is worth what it loses, and no column of it loses less.
fn loss_prices(
    alloc: Global,
    node: &Node<'_>,
    settlement: &Settlement,
) -> Result<Prices, AllocError>
    requires settlement { IsSettlement node.now settlement.now }
    requires legal { IsLegal node.now.mill.now settlement.now.plan }
    requires above { IsSomeAnd node.now.limits.loss
        (λ a. a <ℤ pos (sums_by node.now settlement.now).loss) }
    ensures refutes { IfOk result (RefutesAt node.now) }
    ensures stated { IfOk result (AreStated node.now.mill.now (pos 1) (pos 0) settlement.now.heads.items
        (group_loss node.now.mill.now settlement.now.heads.items settlement.now.kinds.items)) }
{
    let pi = losses_of(alloc, node.mill, &settlement.heads, &settlement.kinds)?;
    prices_by(alloc, node.mill, 1, 0, pi)
}

// Where the plan has more new slabs than the limit, each group on one is worth 1, which is what a new slab costs.
fn count_prices(
    alloc: Global,
    node: &Node<'_>,
    settlement: &Settlement,
) -> Result<Prices, AllocError>
    requires settlement { IsSettlement node.now settlement.now }
    requires legal { IsLegal node.now.mill.now settlement.now.plan }
    requires above { IsSomeAnd node.now.limits.count
        (λ b. b <ℤ pos (sums_by node.now settlement.now).count) }
    ensures refutes { IfOk result (RefutesAt node.now) }
    ensures stated { IfOk result (AreStated node.now.mill.now (pos 0) (pos 1) settlement.now.heads.items
        (group_count settlement.now.kinds.items)) }
{
    let pi = counts_of(alloc, &settlement.heads, &settlement.kinds)?;
    prices_by(alloc, node.mill, 0, 1, pi)
}

// The plan where it is within the limits, else the prices that show that no plan is.
fn limited(
    alloc: Global,
    node: &Node<'_>,
    settlement: Settlement,
    sums: Sums,
) -> Result<Turned, AllocError>
    requires settlement { IsSettlement node.now settlement }
    requires legal { IsLegal node.now.mill.now settlement.plan }
    requires sums { sums ≡ sums_by node.now settlement }
    ensures refuted { IfOk result (λ t. IfRefuted t (RefutesAt node.now)) }
    ensures stated { IfOk result (λ t. IfRefuted t (IsFirstStatedAt node.now)) }
    ensures in_box { IfOk result (λ t. IfInBox t (IsInBoxAt node.now)) }
    ensures closed { IfOk result IsClosed }
{
    if exceeds(sums.loss, node.limits.loss) {
        return Ok(Turned::Refuted(loss_prices(alloc, node, &settlement)?));
    }
    if exceeds(u32::from(sums.count), node.limits.count) {
        return Ok(Turned::Refuted(count_prices(alloc, node, &settlement)?));
    }
    let Settlement {
        heads: _heads,
        kinds: _kinds,
        plan,
    } = settlement;
    Ok(Turned::InBox(plan))
}

// The turn of a node whose decisions are settled: the one plan that agrees, or prices.
pub(crate) fn settle(alloc: Global, node: &Node<'_>) -> Result<Turned, AllocError>
    requires { IsSettledNode node.now }
    ensures refuted { IfOk result (λ t. IfRefuted t (RefutesAt node.now)) }
    ensures stated { IfOk result (λ t. IfRefuted t (IsFirstStatedAt node.now)) }
    ensures in_box { IfOk result (λ t. IfInBox t (IsInBoxAt node.now)) }
    ensures closed { IfOk result IsClosed }
{
    let settlement = Settlement::new(alloc, node)?;
    match settlement.plan.judge(node.mill) {
        Ok(sums) => limited(alloc, node, settlement, sums),
        Err(rule) => Ok(Turned::Refuted(misfit(alloc, node, &settlement, rule)?)),
    }
}
