//! Orders in the groups that the decisions join.
ghost use Rattle.std.specs.Prelude.{◌≡◌, ◌*◌, ◌^◌, ◌<◌, ◌≤◌, true, IfOk, length, pos, ◌+ℤ◌, ◌*ℤ◌, unsigned_abs};
ghost use Rattle.mill_model.specs.Mill.{most_orders, most_weight};
ghost use Rattle.std.specs.Bool.{OnTrue, OnFalse};
ghost use Rattle.mill_model.specs.Assignments.{Follows};
ghost use Rattle.pricing_laws.specs.Groups.{AreHeads};
ghost use Rattle.mill_model.specs.Prices.{IsPrice};
ghost use Rattle.pricing_laws.specs.Gains.{gain_of};
ghost use Rattle.pricing_laws.specs.Groupings.{HasRoom, AreBefore, AreWeights, AreGains, AreGroups, weight_at, gain_at};
ghost use Rattle.slab_price.specs.Groupings.{AreAlike, IsHead};

use mill_model::{Ask, MOST_ORDERS, Mill, Prices};
use slab_decide::Decisions;
use std::alloc::{AllocError, Global};
use std::marker::Model;

// For each order the least of its group, its head, and for each head what its group weighs and gains.
#[derive(Drop)]
pub(crate) struct Groups {
    heads: Vec<u16>,
    weights: Vec<u32>,
    gains: Vec<i128>,
}

impl Model for Groups {
    ghost use Rattle.pricing_laws.specs.Groupings.{Groups};

    ghost Value = { Groups };

    ghost view = { λ g.
        record { heads = g.heads.items; weights = g.weights.items; gains = g.gains.items } };
}

impl Groups {
    // Room for the groups of so many orders.
    pub(crate) fn new(alloc: Global, orders: usize) -> Result<Groups, AllocError>
        requires { orders ≤ most_orders }
        ensures { IfOk result (HasRoom orders) }
    {
        let heads = vec![in alloc; 0; orders]?;
        let weights = vec![in alloc; 0; orders]?;
        let gains = vec![in alloc; 0; orders]?;
        Ok(Groups {
            heads,
            weights,
            gains,
        })
    }

    // Joins the orders that the decisions put together, and weighs and prices each group.
    pub(crate) fn form(&mut self, mill: &Mill, decisions: &Decisions, prices: &Prices)
        requires room { HasRoom (length mill.now.orders) self.old }
        requires orders { decisions.now.orders ≡ length mill.now.orders }
        requires pi { length prices.now.pi ≡ length mill.now.orders }
        ensures { AreGroups mill.now decisions.now.list prices.now self.new }
    {
        let few = mill.orders().len();
        prove!(few <= MOST_ORDERS as usize);
        find_heads(decisions, &mut self.heads);
        weigh_groups(mill, &self.heads, &mut self.weights);
        price_groups(mill, prices, &self.heads, &mut self.gains);
    }

    // The head of each order.
    pub(crate) fn heads(&self) -> &[u16]
        ensures { result.now ≡ self.now.heads }
    {
        &self.heads
    }

    // What a group weighs.
    pub(crate) fn weight(&self, head: usize) -> u32
        requires { head < length self.now.weights }
        ensures { result ≡ weight_at self.now head }
    {
        self.weights[head]
    }

    // What a group gains.
    pub(crate) fn gain(&self, head: usize) -> i128
        requires { head < length self.now.gains }
        ensures { result ≡ gain_at self.now head }
    {
        self.gains[head]
    }
}

// Whether the decisions put two orders together.
fn are_together(decisions: &Decisions, first: u16, second: u16) -> bool
    requires order { first < second }
    requires orders { second < decisions.now.orders }
    ensures yes { OnTrue result (Follows decisions.now.list (Ask.Pair first second) true) }
    ensures no { OnFalse result (Follows decisions.now.list (Ask.Pair first second) true → ⊥) }
    ensures alike { OnTrue result (AreAlike decisions.now.list second first) }
{
    decisions.follows(Ask::Pair(first, second)) == Some(true)
}

// The least order that the decisions put together with this one, or this one itself.
fn head_of(decisions: &Decisions, order: u16) -> u16
    requires { order < decisions.now.orders }
    ensures { IsHead decisions.now.list order result }
{
    for earlier in 0..order {
        if are_together(decisions, earlier, order) {
            return earlier;
        }
    }
    order
}

// The head of each order.
fn find_heads(decisions: &Decisions, heads: &mut [u16])
    requires count { length heads.old ≡ decisions.now.orders }
    requires few { length heads.old ≤ most_orders }
    ensures { AreHeads decisions.now.list heads.new }
{
    for (order, head) in heads.iter_mut().enumerate() {
        *head = head_of(decisions, order as u16);
    }
}

// What each group weighs.
fn weigh_groups(mill: &Mill, heads: &[u16], weights: &mut [u32])
    requires orders { length heads.now ≡ length mill.now.orders }
    requires before { AreBefore heads.now }
    requires few { length heads.now ≤ most_orders }
    requires room { length weights.old ≡ length heads.now }
    ensures { AreWeights mill.now heads.now weights.new }
{
    weights.fill(0);
    for (order, head) in heads.iter().enumerate() {
        weights[usize::from(*head)] += u32::from(mill.orders()[order].weight);
    }
}

// A price, and another price so many times.
fn with_multiple(price: i64, each: i64, amount: u16) -> i128
    requires price { IsPrice price }
    requires each { IsPrice each }
    requires amount { amount ≤ most_weight }
    ensures value { result ≡ price +ℤ each *ℤ pos amount }
    ensures small { unsigned_abs result ≤ 2 ^ 76 }
{
    let multiple = i128::from(each) * i128::from(amount);
    i128::from(price) + multiple
}

// What an order gains: what it is worth, and the price of the loss that its weight saves.
fn gain_of(mill: &Mill, prices: &Prices, order: usize) -> i128
    requires order { order < length mill.now.orders }
    requires pi { length prices.now.pi ≡ length mill.now.orders }
    ensures value { result ≡ gain_of mill.now prices.now order }
    ensures small { unsigned_abs result ≤ 2 ^ 76 }
{
    let weight = mill.orders()[order].weight;
    let price = prices.pi()[order];
    with_multiple(price, prices.lambda(), weight)
}

// What each group gains.
fn price_groups(mill: &Mill, prices: &Prices, heads: &[u16], gains: &mut [i128])
    requires pi { length prices.now.pi ≡ length mill.now.orders }
    requires orders { length heads.now ≡ length mill.now.orders }
    requires before { AreBefore heads.now }
    requires few { length heads.now ≤ most_orders }
    requires room { length gains.old ≡ length heads.now }
    ensures { AreGains mill.now prices.now heads.now gains.new }
{
    gains.fill(0);
    for (order, head) in heads.iter().enumerate() {
        gains[usize::from(*head)] += gain_of(mill, prices, order);
    }
}
