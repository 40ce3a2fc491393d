//! A plan at work: its slabs, and where the orders lie.

use crate::facts::{Fact, Facts, bit};
use crate::items::Item;
use crate::packing::Packed;
use crate::slab::Slab;
use mill_model::{Kind, Plan};
use std::alloc::{AllocError, Global};

// The place of an order that lies nowhere.
pub(crate) const NOWHERE: usize = usize::MAX;

#[derive(Drop)]
pub(crate) struct Layout {
    pub slabs: Vec<Slab>,
    pub place: Vec<usize>,
    // The surplus slabs among the slabs, a bit each.
    pub taken: u64,
    pub loss: u64,
    // How many of the slabs are new.
    pub news: usize,
    // Where the slabs go when some are released.
    moved: Vec<usize>,
}

impl Layout {
    // No slab, with room for as many as there are orders.
    pub(crate) fn new(alloc: Global, orders: usize) -> Result<Layout, AllocError> {
        Ok(Layout {
            slabs: Vec::with_capacity(alloc, orders)?,
            place: vec![in alloc; NOWHERE; orders]?,
            taken: 0,
            loss: 0,
            news: 0,
            moved: Vec::with_capacity(alloc, orders)?,
        })
    }

    // No order lies on a slab.
    pub(crate) fn clear(&mut self) {
        self.slabs.clear();
        for place in &mut self.place {
            *place = NOWHERE;
        }
        self.taken = 0;
    }

    // The slabs and places of another layout of the mill.
    pub(crate) fn copy_from(&mut self, other: &Layout) {
        self.slabs.clear();
        for slab in &other.slabs {
            let _ = self.slabs.push(*slab);
        }
        for (place, from) in self.place.iter_mut().zip(&other.place) {
            *place = *from;
        }
        self.taken = other.taken;
        self.loss = other.loss;
        self.news = other.news;
    }

    // An empty slab of a kind, unless it is a surplus slab that is taken.
    pub(crate) fn open(&mut self, facts: &Facts, kind: Kind) -> Option<Slab> {
        match kind {
            Kind::New(_) => Some(Slab::new(facts)),
            Kind::Old(surplus) => self.open_old(facts, usize::from(surplus)),
        }
    }

    // A free surplus slab, which is taken then.
    fn open_old(&mut self, facts: &Facts, surplus: usize) -> Option<Slab> {
        if self.taken & bit(surplus) != 0 || surplus >= facts.yard.len() {
            return None;
        }
        self.taken |= bit(surplus);
        Some(Slab::old(facts, surplus))
    }

    // One slab more, where there is room for it.
    fn push(&mut self, slab: Slab) -> Option<usize> {
        let index = self.slabs.len();
        if index >= self.place.len() || self.slabs.push(slab).is_err() {
            return None;
        }
        Some(index)
    }

    // An order joins a slab.
    fn put(&mut self, facts: &Facts, order: usize, slab: usize) {
        let (Some(fact), Some(slab_there)) = (facts.orders.get(order), self.slabs.get_mut(slab))
        else {
            return;
        };
        slab_there.put(fact);
        if let Some(place) = self.place.get_mut(order) {
            *place = slab;
        }
    }

    // The slabs and places of a plan, as far as they make sense.
    pub(crate) fn load(&mut self, facts: &Facts, plan: &Plan) {
        self.clear();
        for kind in plan.kinds() {
            let slab = match self.open(facts, *kind) {
                Some(slab) => slab,
                None => Slab::new(facts),
            };
            let _ = self.push(slab);
        }
        for (order, slab) in plan.place().iter().enumerate() {
            self.put(facts, order, usize::from(*slab));
        }
    }

    // Takes a column, where its orders are free, they may lie together, and its slab isn't taken.
    pub(crate) fn take(&mut self, facts: &Facts, kind: Kind, orders: &[u16]) -> bool {
        if !self.are_free(orders) {
            return false;
        }
        let Some(slab) = self.open(facts, kind) else {
            return false;
        };
        let Some(index) = self.push(slab) else {
            return false;
        };
        for order in orders {
            self.put(facts, usize::from(*order), index);
        }
        true
    }

    fn are_free(&self, orders: &[u16]) -> bool {
        orders.iter().all(|order| self.place.get(usize::from(*order)).copied() == Some(NOWHERE))
    }

    // Places each order that lies nowhere, the heaviest first. It answers whether each found a place.
    pub(crate) fn complete(&mut self, facts: &Facts) -> bool {
        for order in &facts.by_weight {
            if self.place.get(*order).copied() == Some(NOWHERE) {
                if !self.place_order(facts, *order) {
                    return false;
                }
            }
        }
        true
    }

    // Places an order where it costs least: on a slab that is there, on a new one, or on a free surplus slab.
    fn place_order(&mut self, facts: &Facts, order: usize) -> bool {
        let Some(fact) = facts.orders.get(order).copied() else {
            return false;
        };
        let slab = match self.best_slab(facts, &fact) {
            Some(slab) => Some(slab),
            None => self.opened_for(facts, &fact),
        };
        match slab {
            Some(slab) => {
                self.put(facts, order, slab);
                true
            }
            None => false,
        }
    }

    // The slab on which an order makes the least loss, where that is at most what it makes alone on a new one.
    fn best_slab(&self, facts: &Facts, order: &Fact) -> Option<usize> {
        let mut best = None;
        let mut least = i64::from(facts.new_loss(order.weight));
        for (index, slab) in self.slabs.iter().enumerate() {
            if slab.takes(facts, order) {
                let mut fuller = *slab;
                fuller.put(order);
                let more = i64::from(fuller.loss(facts)) - i64::from(slab.loss(facts));
                if more <= least {
                    least = more;
                    best = Some(index);
                }
            }
        }
        best
    }

    // A slab that is opened for an order.
    fn opened_for(&mut self, facts: &Facts, order: &Fact) -> Option<usize> {
        let new = Slab::new(facts);
        if new.takes(facts, order) {
            return self.push(new);
        }
        for surplus in 0..facts.yard.len() {
            if Slab::old(facts, surplus).takes(facts, order) {
                if let Some(slab) = self.open_old(facts, surplus) {
                    return self.push(slab);
                }
            }
        }
        None
    }

    // Sums the loss and the number of new slabs.
    pub(crate) fn sum_up(&mut self, facts: &Facts) {
        self.loss = 0;
        self.news = 0;
        for slab in &self.slabs {
            self.loss = self.loss.saturating_add(u64::from(slab.loss(facts)));
            if slab.surplus.is_none() {
                self.news = self.news.saturating_add(1);
            }
        }
    }

    // Takes slabs away, with what lies on them. The others move together.
    pub(crate) fn drop_slabs(&mut self, released: &[usize]) {
        self.moved.clear();
        self.taken = 0;
        let mut kept: usize = 0;
        for slab in 0..self.slabs.len() {
            if released.contains(&slab) {
                let _ = self.moved.push(NOWHERE);
            } else {
                self.move_slab(slab, kept);
                kept = kept.saturating_add(1);
            }
        }
        self.slabs.truncate(kept);
        for place in &mut self.place {
            *place = self.moved.get(*place).copied().unwrap_or(NOWHERE);
        }
    }

    fn move_slab(&mut self, from: usize, to: usize) {
        let _ = self.moved.push(to);
        if let Some(slab) = self.slabs.get(from).copied() {
            if let Some(surplus) = slab.surplus {
                self.taken |= bit(surplus);
            }
            if let Some(there) = self.slabs.get_mut(to) {
                *there = slab;
            }
        }
    }

    // One slab more, with the items whose bits are set.
    pub(crate) fn add_slab(&mut self, facts: &Facts, packed: &Packed, items: &[Item]) {
        let slab = match packed.surplus {
            Some(surplus) => self.open_old(facts, surplus),
            None => Some(Slab::new(facts)),
        };
        let Some(index) = slab.and_then(|slab| self.push(slab)) else {
            return;
        };
        for item in items {
            if packed.items & item.bit != 0 {
                self.put(facts, item.order, index);
            }
        }
    }

    // The plan, its slabs numbered by their least order.
    pub(crate) fn plan(&self, alloc: Global, facts: &Facts) -> Result<Plan, AllocError> {
        let mut numbers: Vec<Option<u16>> = vec![in alloc; None; self.slabs.len()]?;
        let mut kinds = Vec::with_capacity(alloc, self.slabs.len())?;
        let mut place = Vec::with_capacity(alloc, self.place.len())?;
        for slab in &self.place {
            place.push(self.number(facts, *slab, &mut numbers, &mut kinds)?)?;
        }
        Ok(Plan::new(kinds, place))
    }

    // The number of a slab in the plan, of which one without a number takes the next.
    fn number(
        &self,
        facts: &Facts,
        slab: usize,
        numbers: &mut [Option<u16>],
        kinds: &mut Vec<Kind>,
    ) -> Result<u16, AllocError> {
        let (Some(number), Some(there)) = (numbers.get_mut(slab), self.slabs.get(slab)) else {
            return Ok(u16::MAX);
        };
        if let Some(known) = *number {
            return Ok(known);
        }
        let next = kinds.len().min(usize::from(u16::MAX)) as u16;
        kinds.push(there.kind(facts))?;
        *number = Some(next);
        Ok(next)
    }
}
