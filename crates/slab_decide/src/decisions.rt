ghost use Rattle.std.specs.Prelude.{◌≡◌, ◌<◌, ◌≤◌, ◌∷◌, [], IfOk, IfSome, IfNone, OnOk, OnErr, true, false};
ghost use Rattle.mill_model.specs.declared.ask.Ask.{Ask};
ghost use Rattle.mill_model.specs.Mill.{most_orders, most_slabs};
ghost use Rattle.mill_model.specs.Columns.{Rises};
ghost use Rattle.mill_model.specs.Decisions.{column_agrees};
ghost use Rattle.mill_model.specs.Assignments.{Follows};
ghost use Rattle.slab_decide.specs.Decided.{Decisions, IsAskOf, AreDecisions, AreConsistent, HasDecided, IsOpen, IsFirstOpen, AreSettledFor};

use crate::Clash;
use crate::asks::{add, nodes, relation_of, stands};
use crate::column::{are_orders_whole, is_slab_whole, known_kind};
use crate::open_asks::{first_open_pair, first_open_put};
use mill_model::{Ask, Kind};
use slab_closure::{Closure, Relation};
use std::alloc::{AllocError, Global};
use std::marker::Model;

/// Branching decisions about orders (at most 250) and surplus slabs (at most 40), with all that follows from them. They
/// are seen as a list, the latest first, in which each ask stands at most once.
#[derive(Drop)]
pub struct Decisions {
    orders: u16,
    yard: u16,
    relations: Closure,
    list: Vec<(Ask, bool)>,
}

impl Model for Decisions {
    ghost use Rattle.std.specs.Prelude.{◌+◌, ◌*◌, ◌≤◌, reverse, vec_capacity};
    ghost use Rattle.slab_decide.specs.Decided.{Decisions};
    ghost use Rattle.slab_decide.specs.Kept.{IsKept};

    ghost Value = { Decisions };

    ghost view = { λ d. record { orders = d.orders; yard = d.yard; list = reverse d.list.items } };

    ghost invariant = { λ d. IsKept (record { orders = d.orders; yard = d.yard; list = reverse d.list.items }) d.relations × ((d.yard + d.orders) * d.orders ≤ vec_capacity d.list) };
}

impl Decisions {
    /// No decision yet, with room for every ask, so that no later call takes memory. The only error is want of memory.
    pub fn new(alloc: Global, orders: u16, yard: u16) -> Result<Decisions, AllocError>
        requires orders { orders ≤ most_orders }
        requires yard { yard ≤ most_slabs }
        ensures { IfOk result (λ made. made ≡ record { orders = orders; yard = yard; list = [] }) }
    {
        let relations = Closure::new(alloc, yard as usize, orders as usize)?;
        let asks = (yard as usize + orders as usize) * orders as usize;
        let list = Vec::with_capacity(alloc, asks)?;
        Ok(Decisions {
            orders,
            yard,
            relations,
            list,
        })
    }

    /// Takes all decisions back.
    pub fn reset(&mut self)
        ensures { self.new ≡ record self.old { list = [] } }
    {
        self.relations.reset();
        self.list.clear();
    }

    /// Decides about an ask whether its answer is yes. A decision that stands already changes nothing. The error comes exactly
    /// where no assignment agrees with the decisions and this one, and nothing has changed then.
    pub fn decide(&mut self, ask: Ask, yes: bool) -> Result<(), Clash>
        requires { IsAskOf self.old ask }
        ensures decided { OnOk result (HasDecided self.old self.new (ask, yes)) }
        ensures consistent { OnOk result (AreConsistent ((ask, yes) ∷ self.old.list)) }
        ensures clash { OnErr result (AreConsistent ((ask, yes) ∷ self.old.list) → ⊥) }
        ensures unchanged { OnErr result (self.new ≡ self.old) }
        ensures orders { self.new.orders ≡ self.old.orders }
        ensures yard { self.new.yard ≡ self.old.yard }
    {
        let (first, second) = nodes(self.yard, ask);
        let relation = self.relations.at(first, second);
        if relation == Relation::Open {
            self.relations.decide(first, second, yes);
            add(&mut self.list, ask, yes);
            return Ok(());
        }
        if relation != relation_of(yes) {
            return Err(Clash);
        }
        if stands(&self.list, ask, yes) {
            return Ok(());
        }
        add(&mut self.list, ask, yes);
        Ok(())
    }

    /// Decides whether orders i and j lie in one group. A decision that stands already changes nothing. The error comes
    /// exactly where no assignment agrees with the decisions and this one, and nothing has changed then.
    pub fn pair(&mut self, i: u16, j: u16, yes: bool) -> Result<(), Clash>
        requires order { i < j }
        requires orders { j < self.old.orders }
        ensures decided { OnOk result (HasDecided self.old self.new (Ask.Pair i j, yes)) }
        ensures consistent { OnOk result (AreConsistent ((Ask.Pair i j, yes) ∷ self.old.list)) }
        ensures clash { OnErr result (AreConsistent ((Ask.Pair i j, yes) ∷ self.old.list) → ⊥) }
        ensures unchanged { OnErr result (self.new ≡ self.old) }
        ensures orders { self.new.orders ≡ self.old.orders }
        ensures yard { self.new.yard ≡ self.old.yard }
    {
        self.decide(Ask::Pair(i, j), yes)
    }

    /// Decides whether the group of order o lies on surplus slab s. A decision that stands already changes nothing. The
    /// error comes exactly where no assignment agrees with the decisions and this one, and nothing has changed then.
    pub fn put(&mut self, o: u16, s: u16, yes: bool) -> Result<(), Clash>
        requires orders { o < self.old.orders }
        requires yard { s < self.old.yard }
        ensures decided { OnOk result (HasDecided self.old self.new (Ask.Put o s, yes)) }
        ensures consistent { OnOk result (AreConsistent ((Ask.Put o s, yes) ∷ self.old.list)) }
        ensures clash { OnErr result (AreConsistent ((Ask.Put o s, yes) ∷ self.old.list) → ⊥) }
        ensures unchanged { OnErr result (self.new ≡ self.old) }
        ensures orders { self.new.orders ≡ self.old.orders }
        ensures yard { self.new.yard ≡ self.old.yard }
    {
        self.decide(Ask::Put(o, s), yes)
    }

    /// The answer that all assignments give that agree with the decisions, `None` where they differ.
    pub fn follows(&self, ask: Ask) -> Option<bool>
        requires { IsAskOf self.now ask }
        ensures some { IfSome result (λ answer. Follows self.now.list ask answer) }
        ensures none { IfNone result (IsOpen self.now.list ask) }
        ensures consistent { AreConsistent self.now.list }
        ensures decisions { AreDecisions self.now }
    {
        let (first, second) = nodes(self.yard, ask);
        match self.relations.at(first, second) {
            Relation::Open => None,
            Relation::Same => Some(true),
            Relation::Apart => Some(false),
        }
    }

    /// The first ask that doesn't follow: pairs before puts, each by its numbers. `None` comes exactly where each ask
    /// follows.
    pub fn first_open(&self) -> Option<Ask>
        ensures some { IfSome result (IsFirstOpen self.now) }
        ensures none { IfNone result (AreSettledFor self.now) }
        ensures consistent { AreConsistent self.now.list }
        ensures decisions { AreDecisions self.now }
    {
        if let Some(ask) = first_open_pair(&self.relations, self.orders, self.yard) {
            return Some(ask);
        }
        first_open_put(&self.relations, self.orders, self.yard)
    }

    /// Whether a column, a kind of slab with its orders, agrees with every decision.
    pub fn allows(&self, kind: Kind, orders: &[u16]) -> bool
        requires { Rises 0 self.now.orders orders.now }
        ensures { result ≡ column_agrees self.now.list (record { kind = kind; orders = orders.now }) }
    {
        let known = known_kind(self.yard, kind);
        if !is_slab_whole(&self.relations, self.yard, known, orders) {
            return false;
        }
        are_orders_whole(&self.relations, self.yard, known, orders)
    }
}
