//! One part of the layout is released and packed anew.

use crate::facts::bit;
use crate::packing::{MOST_TRIED, Task};
use crate::repack::Repack;

// At most so many free surplus slabs are offered to a packing.
const MOST_SURPLUS: usize = 3;

// Beside its packing, a renewal counts for so many steps.
const OVERHEAD: u64 = 4;

impl Repack {
    // Releases some slabs and packs their orders anew, in at most so many steps. It answers how many that took.
    pub(crate) fn renew(&mut self, count: usize, most: u64) -> u64 {
        let too_many = self.layout.news > count;
        let slabs = self.draw_slabs();
        self.release.choose(&self.facts, &self.layout, &mut self.random, slabs, too_many);
        self.gather_items();
        self.gather_surplus();
        let task = self.task(count, most.min(u64::from(u32::MAX)) as u32);
        let steps = self.packing.pack(&self.facts, &mut self.random, task);
        if self.packing.is_found {
            self.replace();
        }
        OVERHEAD.saturating_add(u64::from(steps))
    }

    // How many slabs are released: 2, 3 or 4, each as often, and at times 5.
    fn draw_slabs(&mut self) -> usize {
        match self.random.below(10) {
            0..=2 => 2,
            3..=5 => 3,
            6..=8 => 4,
            _ => 5,
        }
    }

    // The orders of the released slabs, by falling weight.
    fn gather_items(&mut self) {
        self.packing.items.clear();
        for order in &self.facts.by_weight {
            let slab = self.layout.place.get(*order).copied().unwrap_or(usize::MAX);
            if self.release.has(slab) {
                if let Some(fact) = self.facts.orders.get(*order) {
                    self.packing.items.add(*order, fact);
                }
            }
        }
        self.packing.items.link();
    }

    // Some surplus slabs that are free, or are then.
    fn gather_surplus(&mut self) {
        let mut free = !self.layout.taken;
        for slab in &self.release.slabs {
            if let Some(surplus) = self.layout.slabs.get(*slab).and_then(|slab| slab.surplus) {
                free |= bit(surplus);
            }
        }
        self.packing.yard.clear();
        for surplus in 0..self.facts.yard.len() {
            if free & bit(surplus) != 0 {
                let _ = self.packing.yard.push(surplus);
            }
        }
        self.draw_surplus();
    }

    // Keeps a few of the surplus slabs, drawn at random.
    fn draw_surplus(&mut self) {
        let yard = &mut self.packing.yard;
        for place in 0..MOST_SURPLUS {
            let rest = yard.len().saturating_sub(place);
            let other = place.saturating_add(self.random.place(rest));
            if place < yard.len() && other < yard.len() {
                yard.swap(place, other);
            }
        }
        yard.truncate(MOST_SURPLUS);
    }

    // What the packing of the released slabs is to be. While there are too many new slabs, it may lose half a slab more.
    fn task(&mut self, count: usize, most: u32) -> Task {
        let fewer = self.layout.news > count;
        let (released, loss, squares) = self.sums_of_released();
        let (steps, listed, tried) = self.draw_effort();
        let more_news = usize::from(self.layout.news < count);
        let more_loss = if fewer { self.facts.greatest / 2 } else { 0 };
        Task {
            news: released.saturating_add(more_news),
            loss: loss.saturating_add(u64::from(more_loss)),
            fewer,
            squares: squares.saturating_sub(self.draw_slack()),
            steps: steps.min(most),
            listed,
            tried,
        }
    }

    // Of the released slabs: how many are new, the loss, and the sum of the squares of the new slabs' loads.
    fn sums_of_released(&self) -> (usize, u64, u64) {
        let mut news: usize = 0;
        let mut loss: u64 = 0;
        let mut squares: u64 = 0;
        for slab in &self.release.slabs {
            if let Some(slab) = self.layout.slabs.get(*slab) {
                loss = loss.saturating_add(u64::from(slab.loss(&self.facts)));
                if slab.surplus.is_none() {
                    let load = u64::from(slab.load);
                    news = news.saturating_add(1);
                    squares = squares.saturating_add(load.saturating_mul(load));
                }
            }
        }
        (news, loss, squares)
    }

    // How many steps, columns listed and columns tried.
    fn draw_effort(&mut self) -> (u32, u32, usize) {
        match self.random.below(3) {
            0 => (300, 200, MOST_TRIED),
            1 => (1_000, 30, MOST_TRIED),
            _ => (3_000, 60, 6),
        }
    }

    // By how much the squares may fall: at all, a quarter of the time.
    fn draw_slack(&mut self) -> u64 {
        let greatest = u64::from(self.facts.greatest);
        let square = greatest.saturating_mul(greatest);
        match self.random.below(16) {
            0 => square / 2,
            1..=3 => square / 8,
            _ => 0,
        }
    }

    // Puts the packing in place of the released slabs.
    fn replace(&mut self) {
        self.layout.drop_slabs(&self.release.slabs);
        for packed in &self.packing.found {
            self.layout
                .add_slab(&self.facts, packed, &self.packing.items.list);
        }
        self.layout.sum_up(&self.facts);
    }
}
