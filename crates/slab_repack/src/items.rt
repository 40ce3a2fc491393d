//! The orders that are released.

use crate::facts::{Fact, bit};
use std::alloc::{AllocError, Global};

// At most so many orders are released, since sets of them are the bits of a number.
pub(crate) const MOST_ITEMS: usize = 64;

// A released order.
#[derive(Clone, Copy, Drop)]
pub(crate) struct Item {
    pub order: usize,
    pub weight: u32,
    // The bits of its colour among the released ones, of the surplus slabs that it mustn't lie on, and of itself.
    pub colour: u64,
    pub bars: u64,
    pub bit: u64,
    // The item after this one, and the first after it that isn't like it.
    pub after: usize,
    pub other: usize,
}

impl Item {
    fn is_like(&self, item: &Item) -> bool {
        self.weight == item.weight && self.colour == item.colour && self.bars == item.bars
    }
}

// Released orders by falling weight, those that are alike side by side.
#[derive(Drop)]
pub(crate) struct Items {
    pub list: Vec<Item>,
    colours: Vec<u16>,
}

impl Items {
    pub(crate) fn new(alloc: Global) -> Result<Items, AllocError> {
        Ok(Items {
            list: Vec::with_capacity(alloc, MOST_ITEMS)?,
            colours: Vec::with_capacity(alloc, MOST_ITEMS)?,
        })
    }

    pub(crate) fn clear(&mut self) {
        self.list.clear();
        self.colours.clear();
    }

    // Adds an order, which isn't heavier than those before, where there is room.
    pub(crate) fn add(&mut self, order: usize, fact: &Fact) {
        let place = self.list.len();
        if place >= MOST_ITEMS {
            return;
        }
        let colour = self.colour_bit(fact.colour);
        let _ = self.list.push(Item {
            order,
            weight: fact.weight,
            colour,
            bars: fact.bars,
            bit: bit(place),
            after: place + 1,
            other: place + 1,
        });
    }

    // The bit of a colour, which gets the next one where it hasn't come before.
    fn colour_bit(&mut self, colour: u16) -> u64 {
        match self.colours.iter().position(|known| *known == colour) {
            Some(place) => bit(place),
            None => {
                let place = self.colours.len();
                let _ = self.colours.push(colour);
                bit(place)
            }
        }
    }

    // Finds for each item the first after it that isn't like it.
    pub(crate) fn link(&mut self) {
        let mut later: Option<Item> = None;
        let count = self.list.len();
        for back in 0..count {
            if let Some(item) = self.list.get_mut(count - 1 - back) {
                if let Some(next) = later {
                    if item.is_like(&next) {
                        item.other = next.other;
                    }
                }
                later = Some(*item);
            }
        }
    }
}
