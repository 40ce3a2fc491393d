//! A slab that is filled order by order.

use crate::facts::{Fact, Facts, bit};
use mill_model::Kind;

#[derive(Clone, Copy, Drop)]
pub(crate) struct Slab {
    // The surplus slab, or none for a new one, whose size its load tells.
    pub surplus: Option<usize>,
    pub room: u32,
    pub load: u32,
    // How many orders lie on it.
    pub orders: usize,
    // The different colours, and 0 where there is room for one more.
    pub colours: [u16; 3],
}

impl Slab {
    // A new slab without orders.
    pub(crate) fn new(facts: &Facts) -> Slab {
        Slab {
            surplus: None,
            room: facts.greatest,
            load: 0,
            orders: 0,
            colours: [0; 3],
        }
    }

    // A surplus slab without orders.
    pub(crate) fn old(facts: &Facts, surplus: usize) -> Slab {
        Slab {
            surplus: Some(surplus),
            room: facts.size(surplus),
            load: 0,
            orders: 0,
            colours: [0; 3],
        }
    }

    // Whether an order may join.
    pub(crate) fn takes(&self, facts: &Facts, order: &Fact) -> bool {
        self.load.saturating_add(order.weight) <= self.room
            && self.takes_colour(order.colour, facts.colour_limit)
            && !self.bars(order)
    }

    fn takes_colour(&self, colour: u16, limit: usize) -> bool {
        for known in self.colours.iter().take(limit) {
            if *known == colour || *known == 0 {
                return true;
            }
        }
        false
    }

    fn bars(&self, order: &Fact) -> bool {
        match self.surplus {
            Some(surplus) => order.bars & bit(surplus) != 0,
            None => false,
        }
    }

    // An order joins.
    pub(crate) fn put(&mut self, order: &Fact) {
        self.load = self.load.saturating_add(order.weight);
        self.orders = self.orders.saturating_add(1);
        for known in &mut self.colours {
            if *known == order.colour {
                return;
            }
            if *known == 0 {
                *known = order.colour;
                return;
            }
        }
    }

    // What no order takes.
    pub(crate) fn loss(&self, facts: &Facts) -> u32 {
        match self.surplus {
            Some(_) => self.room.saturating_sub(self.load),
            None => facts.new_loss(self.load),
        }
    }

    // Whether the slabs have a colour in common.
    pub(crate) fn shares_colour(&self, other: &Slab) -> bool {
        self.colours
            .iter()
            .any(|colour| *colour != 0 && other.colours.contains(colour))
    }

    // A new slab is of the least size that holds its load.
    pub(crate) fn kind(&self, facts: &Facts) -> Kind {
        match self.surplus {
            Some(surplus) => Kind::Old(surplus.min(usize::from(u16::MAX)) as u16),
            None => Kind::New(facts.least.get(self.load as usize).copied().unwrap_or(0)),
        }
    }
}
