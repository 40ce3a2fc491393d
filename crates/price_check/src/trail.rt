//! Decisions one after another, with a mark for each question that is answered.
ghost use Rattle.std.specs.Prelude.{◌≡◌, ◌≤◌, ◌∷◌, ◌↔◌, [], true, IfOk, IsSome, IsTrue, unwrap_or, MatchOption, Contains, reverse};
ghost use Rattle.mill_model.specs.Mill.{most_orders, most_slabs};
ghost use Rattle.mill_model.specs.Columns.{has, is_old};
ghost use Rattle.mill_model.specs.Decisions.{agrees, column_agrees};
ghost use Rattle.mill_model.specs.Paths.{next_branch as branch_after};
ghost use Rattle.mill_model.specs.Trees.{IsFresh};
ghost use Rattle.mill_model.specs.Decisions.{IsAskAmong};

use crate::questions::{ask_count, place_of};
use mill_model::{Ask, Kind};
use std::alloc::{AllocError, Global};
use std::marker::Model;

// Decisions one after another, no question twice. Whether a question stands among them is one look at its mark.
#[derive(Drop)]
pub(crate) struct Trail {
    orders: usize,
    slabs: usize,
    decisions: Vec<(Ask, bool)>,
    marks: Vec<bool>,
}

impl Model for Trail {
    ghost use Rattle.price_check.specs.Path.{Trail};

    ghost Value = { Trail };

    ghost use Rattle.std.specs.Prelude.{reverse};
    ghost use Rattle.std.specs.Vec.{vec_capacity};
    ghost use Rattle.price_check.specs.Marks.{IsMarkedTrail};

    ghost view = { λ t. record {
      orders = t.orders;
      slabs = t.slabs;
      decisions = reverse t.decisions.items;
    } };

    ghost invariant = { λ t. IsMarkedTrail t.orders t.slabs
        (reverse t.decisions.items) t.marks.items (vec_capacity t.decisions) };
}

impl Trail {
    ghost use Rattle.price_check.specs.Path.{ArePath, asks_of};

    // No decisions, and the memory for an answer to each question.
    pub(crate) fn new(alloc: Global, orders: usize, slabs: usize) -> Result<Trail, AllocError>
        requires few_orders { orders ≤ most_orders }
        requires few_slabs { slabs ≤ most_slabs }
        ensures { IfOk result (λ t. t ≡ record { orders = orders; slabs = slabs; decisions = [] }) }
    {
        let count = ask_count(orders, slabs);
        let decisions = Vec::with_capacity(alloc, count)?;
        let marks = vec![in alloc; false; count]?;
        Ok(Trail {
            orders,
            slabs,
            decisions,
            marks,
        })
    }

    // Whether a question is answered.
    pub(crate) fn stands(&self, ask: Ask) -> bool
        requires { IsAskAmong self.now.orders self.now.slabs ask }
        ensures stands { IsTrue result ↔ Contains (asks_of self.now.decisions) ask }
        ensures path { ArePath self.now.orders self.now.slabs self.now.decisions }
    {
        self.marks[place_of(self.orders, self.slabs, ask)]
    }

    // Answers a question.
    pub(crate) fn put(&mut self, ask: Ask, answer: bool)
        requires asked { IsAskAmong self.old.orders self.old.slabs ask }
        requires fresh { IsFresh ask self.old.decisions }
        ensures put { self.new ≡ record self.old { decisions = (ask, answer) ∷ self.old.decisions } }
        ensures path { ArePath self.new.orders self.new.slabs self.new.decisions }
    {
        let place = place_of(self.orders, self.slabs, ask);
        self.marks[place] = true;
        self.decisions.push_reserved((ask, answer));
    }

    // Takes off the latest decision, if there is one.
    pub(crate) fn pop(&mut self) -> Option<(Ask, bool)>
        ensures { MatchOption result ((self.old.decisions ≡ []) × (self.new ≡ self.old))
            (λ d. (self.old ≡ record self.new { decisions = d ∷ self.new.decisions })
            × IsAskAmong self.new.orders self.new.slabs d.0 × IsFresh d.0 self.new.decisions) }
    {
        let (ask, answer) = self.decisions.pop()?;
        let place = place_of(self.orders, self.slabs, ask);
        self.marks[place] = false;
        Some((ask, answer))
    }

    // Takes off all decisions.
    pub(crate) fn clear(&mut self)
        ensures { self.new ≡ record self.old { decisions = [] } }
    {
        while let Some(_) = self.pop() {}
    }

    // Takes off the latest decisions whose answer is no, and turns the one before them from yes to no, if there is one.
    pub(crate) fn next_branch(&mut self) -> bool
        ensures left { IsTrue result ↔ IsSome (branch_after self.old.decisions) }
        ensures branch { self.new ≡ record self.old {
          decisions = unwrap_or (branch_after self.old.decisions) [];
        } }
        ensures path { ArePath self.new.orders self.new.slabs self.new.decisions }
    {
        while let Some((ask, answer)) = self.pop() {
            if answer {
                self.put(ask, false);
                return true;
            }
        }
        false
    }

    // The decisions, the earliest first.
    pub(crate) fn decisions(&self) -> &[(Ask, bool)]
        ensures value { reverse result.now ≡ self.now.decisions }
        ensures path { ArePath self.now.orders self.now.slabs self.now.decisions }
    {
        &self.decisions
    }

    // Whether a column agrees with each decision.
    pub(crate) fn agrees(&self, kind: Kind, orders: &[u16]) -> bool
        ensures value { result ≡ column_agrees self.now.decisions
            (record { kind = kind; orders = orders.now }) }
        ensures path { ArePath self.now.orders self.now.slabs self.now.decisions }
    {
        agrees_with_all(&self.decisions, kind, orders)
    }
}

// Whether a column agrees with each decision.
fn agrees_with_all(decisions: &[(Ask, bool)], kind: Kind, orders: &[u16]) -> bool
    ensures { result ≡ column_agrees decisions.now (record { kind = kind; orders = orders.now }) }
{
    for d in decisions {
        if !agrees_with(d.0, d.1, kind, orders) {
            return false;
        }
    }
    true
}

// Whether a column agrees with a decision.
fn agrees_with(ask: Ask, answer: bool, kind: Kind, orders: &[u16]) -> bool
    ensures { result ≡ agrees (record { kind = kind; orders = orders.now }) (ask, answer) }
{
    let (first, second) = match ask {
        Ask::Pair(i, j) => (has(orders, i), has(orders, j)),
        Ask::Put(o, s) => (has(orders, o), is_old(s, kind)),
    };
    if answer {
        first == second
    } else {
        !(first && second)
    }
}

// Whether a column has an order.
fn has(orders: &[u16], order: u16) -> bool
    ensures { result ≡ has orders.now order }
{
    orders.contains(&order)
}

// Whether a slab is this surplus slab.
fn is_old(slab: u16, kind: Kind) -> bool
    ensures { result ≡ is_old slab kind }
{
    match kind {
        Kind::New(_) => false,
        Kind::Old(other) => other == slab,
    }
}
