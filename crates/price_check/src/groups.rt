//! Orders in the groups that the decisions join.
ghost use Rattle.std.specs.Prelude.{◌≡◌, ◌*◌, ◌<◌, ◌≤◌, [], ◌∷◌, List, true, IfOk, length, reverse};
ghost use Rattle.mill_model.specs.Mill.{most_orders};
ghost use Rattle.mill_model.specs.Decisions.{Decision};
ghost use Rattle.pricing_laws.specs.Groups.{AreHeads};
ghost use Rattle.pricing_laws.specs.Groupings.{HasRoom, AreBefore, AreWeights, AreGains, AreGroups, weight_at, gain_at};
ghost use Rattle.price_check.specs.Groupings.{renamed};

use crate::gains::gain_of;
use crate::quote::Quote;
use crate::trail::Trail;
use mill_model::{Ask, MOST_ORDERS, Mill};
use std::alloc::{AllocError, Global};
use std::marker::Model;

// For each order the least of its group, its head, and for each head what its group weighs and gains.
#[derive(Drop)]
pub(crate) struct Groups {
    heads: Vec<u16>,
    weights: Vec<u32>,
    gains: Vec<i128>,
}

impl Model for Groups {
    ghost use Rattle.pricing_laws.specs.Groupings.{Groups};

    ghost Value = { Groups };

    ghost view = { λ g.
        record { heads = g.heads.items; weights = g.weights.items; gains = g.gains.items } };
}

impl Groups {
    // Room for the groups of so many orders.
    pub(crate) fn new(alloc: Global, orders: usize) -> Result<Groups, AllocError>
        requires { orders ≤ most_orders }
        ensures { IfOk result (HasRoom orders) }
    {
        let heads = vec![in alloc; 0; orders]?;
        let weights = vec![in alloc; 0; orders]?;
        let gains = vec![in alloc; 0; orders]?;
        Ok(Groups {
            heads,
            weights,
            gains,
        })
    }

    // Joins the orders that the decisions put together, and weighs and prices each group.
    pub(crate) fn form(&mut self, mill: &Mill, trail: &Trail, quote: &Quote)
        requires room { HasRoom (length mill.now.orders) self.old }
        requires count { length quote.now.pi ≡ length mill.now.orders }
        ensures { AreGroups mill.now trail.now.decisions quote.now self.new }
    {
        let few = mill.orders().len();
        prove!(few <= MOST_ORDERS as usize);
        join_orders(trail, &mut self.heads);
        weigh_groups(mill, &self.heads, &mut self.weights);
        price_groups(mill, quote, &self.heads, &mut self.gains);
    }

    // The head of each order.
    pub(crate) fn heads(&self) -> &[u16]
        ensures { result.now ≡ self.now.heads }
    {
        &self.heads
    }

    // What a group weighs.
    pub(crate) fn weight(&self, head: usize) -> u32
        requires { head < length self.now.weights }
        ensures { result ≡ weight_at self.now head }
    {
        self.weights[head]
    }

    // What a group gains.
    pub(crate) fn gain(&self, head: usize) -> i128
        requires { head < length self.now.gains }
        ensures { result ≡ gain_at self.now head }
    {
        self.gains[head]
    }
}

// The heads of the orders under the decisions of a trail.
fn join_orders(trail: &Trail, heads: &mut [u16])
    requires { length heads.old ≤ most_orders }
    ensures { AreHeads trail.now.decisions heads.new }
{
    part(heads);
    join_all(trail.decisions(), heads);
}

// Each order is its own head.
fn part(heads: &mut [u16])
    requires { length heads.old ≤ most_orders }
    ensures { AreHeads [] heads.new }
{
    for (order, head) in heads.iter_mut().enumerate() {
        *head = order as u16;
    }
}

// Joins what some decisions put together.
fn join_all(decisions: &[(Ask, bool)], heads: &mut [u16])
    requires { AreHeads [] heads.old }
    ensures { AreHeads (reverse decisions.now) heads.new }
{
    for (ask, answer) in decisions {
        join(*ask, *answer, heads);
    }
}

// Joins the groups of two orders where a decision puts them together.
fn join(ask: Ask, answer: bool, heads: &mut [u16])
    ensures { (decisions : List Decision) → AreHeads decisions heads.old
        → AreHeads ((ask, answer) ∷ decisions) heads.new }
{
    if let (Ask::Pair(i, j), true) = (ask, answer) {
        join_pair(i, j, heads);
    }
}

// Joins the groups of two orders, if there are such orders.
fn join_pair(i: u16, j: u16, heads: &mut [u16])
    ensures { (decisions : List Decision) → AreHeads decisions heads.old
        → AreHeads ((Ask.Pair i j, true) ∷ decisions) heads.new }
{
    let (i, j) = (usize::from(i), usize::from(j));
    if i >= heads.len() || j >= heads.len() {
        return;
    }
    let first = heads[i];
    let second = heads[j];
    rename(first.max(second), first.min(second), heads);
}

// Puts one head in the place of another.
fn rename(gone: u16, kept: u16, heads: &mut [u16])
    ensures { heads.new ≡ renamed gone kept heads.old }
{
    for head in heads.iter_mut() {
        if *head == gone {
            *head = kept;
        }
    }
}

// What each group weighs.
fn weigh_groups(mill: &Mill, heads: &[u16], weights: &mut [u32])
    requires orders { length heads.now ≡ length mill.now.orders }
    requires before { AreBefore heads.now }
    requires few { length heads.now ≤ most_orders }
    requires room { length weights.old ≡ length heads.now }
    ensures { AreWeights mill.now heads.now weights.new }
{
    weights.fill(0);
    for (order, head) in heads.iter().enumerate() {
        weights[usize::from(*head)] += u32::from(mill.orders()[order].weight);
    }
}

// What each group gains.
fn price_groups(mill: &Mill, quote: &Quote, heads: &[u16], gains: &mut [i128])
    requires count { length quote.now.pi ≡ length mill.now.orders }
    requires orders { length heads.now ≡ length mill.now.orders }
    requires before { AreBefore heads.now }
    requires few { length heads.now ≤ most_orders }
    requires room { length gains.old ≡ length heads.now }
    ensures { AreGains mill.now quote.now heads.now gains.new }
{
    gains.fill(0);
    for (order, head) in heads.iter().enumerate() {
        gains[usize::from(*head)] += gain_of(mill, quote, order);
    }
}
