//! Which slabs are released.

use crate::facts::Facts;
use crate::items::MOST_ITEMS;
use crate::layout::Layout;
use crate::random::Random;
use crate::slab::Slab;
use std::alloc::{AllocError, Global};

#[derive(Drop)]
pub(crate) struct Release {
    pub slabs: Vec<usize>,
    // How many orders lie on them.
    orders: usize,
}

impl Release {
    pub(crate) fn new(alloc: Global) -> Result<Release, AllocError> {
        Ok(Release {
            slabs: Vec::with_capacity(alloc, 8)?,
            orders: 0,
        })
    }

    pub(crate) fn has(&self, slab: usize) -> bool {
        self.slabs.contains(&slab)
    }

    // Chooses at most so many slabs. The first one prefers loss, and a light load while there are too many slabs. The others
    // mostly share a colour with one before.
    pub(crate) fn choose(
        &mut self,
        facts: &Facts,
        layout: &Layout,
        random: &mut Random,
        count: usize,
        too_many: bool,
    ) {
        self.slabs.clear();
        self.orders = 0;
        let first = first_slab(facts, layout, random, too_many);
        self.add(layout, first);
        for _ in 0..60 {
            if self.slabs.len() >= count {
                return;
            }
            let slab = random.place(layout.slabs.len());
            if !self.has(slab) && (self.shares_colour(layout, slab) || random.below(30) == 0) {
                self.add(layout, slab);
            }
        }
    }

    // Adds a slab, unless there would be too many orders.
    fn add(&mut self, layout: &Layout, slab: usize) {
        let Some(there) = layout.slabs.get(slab) else {
            return;
        };
        let orders = self.orders.saturating_add(there.orders);
        if orders <= MOST_ITEMS {
            self.orders = orders;
            let _ = self.slabs.push(slab);
        }
    }

    fn shares_colour(&self, layout: &Layout, slab: usize) -> bool {
        let Some(slab) = layout.slabs.get(slab) else {
            return false;
        };
        self.slabs.iter().any(|other| layout
            .slabs
            .get(*other)
            .is_some_and(|other| other.shares_colour(slab)))
    }
}

// A slab at random, that has loss if such a one is soon found.
fn lossy_slab(facts: &Facts, layout: &Layout, random: &mut Random) -> usize {
    let count = layout.slabs.len();
    let mut slab = random.place(count);
    for _ in 0..10 {
        if layout
            .slabs
            .get(slab)
            .is_some_and(|there| there.loss(facts) > 0)
        {
            return slab;
        }
        slab = random.place(count);
    }
    slab
}

fn first_slab(facts: &Facts, layout: &Layout, random: &mut Random, too_many: bool) -> usize {
    let mut slab = lossy_slab(facts, layout, random);
    if too_many && random.below(2) == 0 {
        for _ in 0..3 {
            let other = random.place(layout.slabs.len());
            if is_lighter(layout.slabs.get(other), layout.slabs.get(slab)) {
                slab = other;
            }
        }
    }
    slab
}

// Whether the one is a new slab, and the other a surplus slab or fuller.
fn is_lighter(one: Option<&Slab>, other: Option<&Slab>) -> bool {
    match (one, other) {
        (Some(one), Some(other)) => {
            one.surplus.is_none() && (other.surplus.is_some() || one.load < other.load)
        }
        _ => false,
    }
}
