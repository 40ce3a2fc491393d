//! A plan while its slabs are read.
ghost use Rattle.std.specs.Prelude.{◌≡◌, ◌≢◌, Err, ◌≤◌, ◌<◌, ◌-◌, ◌↔◌, ◌++◌, ◌∷◌, [], false, true, List, IfOk, OnOk, IsTrue, drop, length, slice_index_or, sum_by, count_by};
ghost use Rattle.std.specs.Bool.{OnTrue};
ghost use Rattle.mill_model.specs.Columns.{Column, Rises, size_of as size_of_kind};
ghost use Rattle.mill_model.specs.Judging.{is_among};
ghost use Rattle.mill_model.specs.Plans.{is_new};
ghost use Rattle.cert_rules.specs.Slabs.{ArePlaceable, new_slab as new_slab_of, new_rules, old_slab as old_slab_of, old_rules, orders_on, plan_rules};
ghost use Rattle.cert_slabs.specs.Answers.{Answers};
ghost use Rattle.cert_slabs.specs.Drafts.{IsDraft, AreNext, ArePut, IsNextFree};

use crate::roster::Roster;
use crate::slab::{listed_size, named_slab, test_slab};
use cert_rules::Why;
use cert_view::Nums;
use mill_model::{Kind, MOST_ORDERS, Mill, Sums};
use std::alloc::{AllocError, Global};
use std::marker::Model;

/// The slabs of a plan so far, and which orders lie on one of them.
#[derive(Drop)]
pub struct Draft {
    kinds: Vec<Kind>,
    placed: Vec<bool>,
    next: usize,
}

impl Model for Draft {
    ghost use Rattle.std.specs.Prelude.{vec_capacity};
    ghost use Rattle.cert_slabs.specs.Drafts.{Draft, IsOpenDraft};

    ghost Value = { Draft };

    ghost view = { λ d. record { kinds = d.kinds.items; placed = d.placed.items } };

    ghost invariant = { λ d. IsOpenDraft d.kinds.items d.placed.items d.next (vec_capacity d.kinds) };
}

impl Draft {
    /// No slab, and the memory for the slabs of any plan of the mill.
    pub fn new(alloc: Global, mill: &Mill) -> Result<Draft, AllocError>
        ensures { IfOk result (IsDraft mill.now []) }
    {
        let kinds = Vec::with_capacity(alloc, usize::from(MOST_ORDERS))?;
        let placed = vec![in alloc; false; mill.orders().len()]?;
        Ok(Draft {
            kinds,
            placed,
            next: 0,
        })
    }

    /// Takes all slabs off.
    pub fn clear(&mut self)
        ensures draft { (m : Mill) →
            length self.old.placed ≡ length m.orders → IsDraft m [] self.new }
        ensures orders { length self.new.placed ≡ length self.old.placed }
    {
        self.kinds.clear();
        for placed in self.placed.iter_mut() {
            *placed = false;
        }
        self.next = 0;
    }

    /// Takes a line `new`: its slab keeps the rules of the line and joins the others, or it breaks one.
    pub fn new_slab(
        &mut self,
        mill: &Mill,
        roster: &mut Roster,
        numbers: &Nums<'_>,
    ) -> Result<(), Why>
        requires count { 2 ≤ length numbers.now }
        requires orders { length self.old.placed ≡ length mill.now.orders }
        ensures rules { (slabs : List Column) → IsDraft mill.now slabs self.old →
            Answers (new_rules mill.now slabs numbers.now) result }
        ensures draft { OnOk result ((slabs : List Column) → IsDraft mill.now slabs self.old →
            IsDraft mill.now (slabs ++ new_slab_of numbers.now ∷ []) self.new) }
        ensures orders { length self.new.placed ≡ length mill.now.orders }
        ensures other { result ≢ Err Why.Column }
    {
        let Some(size) = listed_size(mill, numbers.get(0)) else {
            return Err(Why::Size);
        };
        let kind = Kind::New(size);
        if !self.are_placeable(mill, roster, numbers) {
            return Err(Why::Place);
        }
        test_slab(mill, kind, roster.orders())?;
        self.put(kind, roster.orders());
        Ok(())
    }

    /// Takes a line `old`: its slab keeps the rules of the line and joins the others, or it breaks one.
    pub fn old_slab(
        &mut self,
        mill: &Mill,
        roster: &mut Roster,
        numbers: &Nums<'_>,
    ) -> Result<(), Why>
        requires count { 2 ≤ length numbers.now }
        requires orders { length self.old.placed ≡ length mill.now.orders }
        ensures rules { (slabs : List Column) → IsDraft mill.now slabs self.old →
            Answers (old_rules mill.now slabs numbers.now) result }
        ensures draft { OnOk result ((slabs : List Column) → IsDraft mill.now slabs self.old →
            IsDraft mill.now (slabs ++ old_slab_of numbers.now ∷ []) self.new) }
        ensures orders { length self.new.placed ≡ length mill.now.orders }
        ensures other { result ≢ Err Why.Column }
    {
        let Some(slab) = named_slab(mill, numbers.get(0)) else {
            return Err(Why::Yard);
        };
        if has_surplus(&self.kinds, slab) {
            return Err(Why::Twice);
        }
        let kind = Kind::Old(slab);
        if !self.are_placeable(mill, roster, numbers) {
            return Err(Why::Place);
        }
        match test_slab(mill, kind, roster.orders()) {
            Err(why) => Err(why),
            Ok(()) => {
                self.put(kind, roster.orders());
                Ok(())
            }
        }
    }

    /// Tests the plan where it ends: each order lies on a slab, and the sums are these.
    pub fn test_plan(&self, mill: &Mill, sums: Sums) -> Result<(), Why>
        requires { length self.now.placed ≡ length mill.now.orders }
        ensures rules { (slabs : List Column) → IsDraft mill.now slabs self.now →
            Answers (plan_rules mill.now sums slabs) result }
        ensures other { result ≢ Err Why.Column }
    {
        if self.next < self.placed.len() {
            return Err(Why::Unplaced);
        }
        if loss_of(mill, &self.kinds) != sums.loss || new_slabs(&self.kinds) != sums.count {
            return Err(Why::Sums);
        }
        Ok(())
    }

    // Whether the orders of a slab's line can stand there. They are then those of the roster.
    fn are_placeable(&self, mill: &Mill, roster: &mut Roster, numbers: &Nums<'_>) -> bool
        requires count { 2 ≤ length numbers.now }
        requires orders { length self.now.placed ≡ length mill.now.orders }
        ensures place { (slabs : List Column) → IsDraft mill.now slabs self.now →
            (IsTrue result ↔ ArePlaceable mill.now slabs (drop 1 numbers.now)) }
        ensures orders { OnTrue result (roster.new ≡ orders_on (drop 1 numbers.now)) }
        ensures next { OnTrue result (AreNext self.now.placed roster.new) }
    {
        roster.read(mill, 1, numbers) && self.are_next(roster.orders())
    }

    // Whether these can be the orders of the next slab.
    fn are_next(&self, orders: &[u16]) -> bool
        requires some { 0 < length orders.now }
        requires rise { Rises 0 (length self.now.placed) orders.now }
        ensures { IsTrue result ↔ AreNext self.now.placed orders.now }
    {
        if usize::from(orders[0]) != self.next {
            return false;
        }
        for order in orders {
            if self.placed[usize::from(*order)] {
                return false;
            }
        }
        true
    }

    // Puts orders on a slab.
    fn put(&mut self, kind: Kind, orders: &[u16])
        requires { AreNext self.old.placed orders.now }
        ensures kinds { self.new.kinds ≡ self.old.kinds ++ kind ∷ [] }
        ensures placed { ArePut self.old.placed self.new.placed orders.now }
    {
        mark(&mut self.placed, orders);
        self.kinds.push_reserved(kind);
        self.next = next_free(&self.placed, self.next);
    }
}

// Marks orders as placed.
fn mark(placed: &mut [bool], orders: &[u16])
    requires { Rises 0 (length placed.old) orders.now }
    ensures { ArePut placed.old placed.new orders.now }
{
    for order in orders {
        placed[usize::from(*order)] = true;
    }
}

// The least order from one on that isn't placed, or the number of orders.
fn next_free(placed: &[bool], from: usize) -> usize
    requires { from ≤ length placed.now }
    ensures { IsNextFree placed.now from result }
{
    for o in from..placed.len() {
        if !placed[o] {
            return o;
        }
    }
    placed.len()
}

// Whether a surplus slab stands among slabs.
fn has_surplus(kinds: &[Kind], slab: u16) -> bool
    ensures { result ≡ is_among kinds.now (Kind.Old slab) }
{
    for kind in kinds {
        match kind {
            Kind::New(_) => {}
            Kind::Old(other) => {
                if *other == slab {
                    return true;
                }
            }
        }
    }
    false
}

// The steel of these slabs that the mill's orders don't take.
fn loss_of(mill: &Mill, kinds: &[Kind]) -> u32
    requires { length kinds.now ≤ 250 }
    ensures { result ≡ sum_by (size_of_kind mill.now) kinds.now
        - sum_by (λ order. order.weight) mill.now.orders }
{
    total_size(mill, kinds).saturating_sub(total_weight(mill))
}

// What slabs can hold.
fn total_size(mill: &Mill, kinds: &[Kind]) -> u32
    requires { length kinds.now ≤ 250 }
    ensures { result ≡ sum_by (size_of_kind mill.now) kinds.now }
{
    let mut sum: u32 = 0;
    for kind in kinds {
        sum += u32::from(mill.size_of(*kind));
    }
    sum
}

// What all orders weigh.
fn total_weight(mill: &Mill) -> u32
    ensures { result ≡ sum_by (λ order. order.weight) mill.now.orders }
{
    let orders = mill.orders();
    prove!(orders.len() <= MOST_ORDERS as usize);
    let mut sum: u32 = 0;
    for order in orders {
        sum += u32::from(order.weight);
    }
    sum
}

// How many of these slabs are new.
fn new_slabs(kinds: &[Kind]) -> u16
    requires { length kinds.now ≤ 250 }
    ensures { result ≡ count_by is_new kinds.now }
{
    let mut count: u16 = 0;
    for kind in kinds {
        match kind {
            Kind::New(_) => count += 1,
            Kind::Old(_) => {}
        }
    }
    count
}
