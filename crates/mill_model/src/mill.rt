//! The mill: what is given.
ghost use Rattle.std.specs.Prelude.{◌≡◌, ◌≤◌, length};
ghost use Rattle.mill_model.specs.Mill.{IsInLimits, IsBetween, AreBarsAmong, bare_mill, with_yard, most_colour_limit, most_weight};
ghost use Rattle.mill_model.specs.declared.kind.Kind.TheVariants.{Old};
ghost use Rattle.mill_model.specs.Columns.{IsInStock, is_barred as is_barred_from, size_of as size_of_kind};

use crate::{Kind, Order, USUAL_COLOUR_LIMIT, Yard};
use std::marker::Model;

/// A mill: the slab sizes that it casts (1 to 100 of them, each 1 to 10,000), the number of its colours (1 to 250), how many
/// different colours the orders on one slab may have (1 to 3), its orders (at most 250, each of weight 1 to 10,000), and its
/// yard.
#[derive(Drop)]
pub struct Mill {
    sizes: Vec<u16>,
    colours: u16,
    colour_limit: u16,
    orders: Vec<Order>,
    yard: Yard,
}

impl Model for Mill {
    ghost use Rattle.mill_model.specs.Mill.{Mill, IsInLimits, mill_of};

    ghost Value = { Mill };

    ghost view = { λ m. mill_of m.sizes.items m.colours m.colour_limit m.orders.items m.yard };

    ghost invariant = { λ m. IsInLimits (mill_of m.sizes.items m.colours m.colour_limit m.orders.items m.yard) };
}

impl Mill {
    /// A mill with an empty yard and the colour limit 2. Its numbers are within the limits, and each order's colour is one of
    /// its colours.
    pub fn new(sizes: Vec<u16>, colours: u16, orders: Vec<Order>) -> Mill
        requires { IsInLimits (bare_mill sizes.items colours orders.items) }
        ensures { result ≡ bare_mill sizes.items colours orders.items }
    {
        let yard = Yard::new(Vec::new(*sizes.allocator()), Vec::new(*sizes.allocator()));
        Mill {
            sizes,
            colours,
            colour_limit: USUAL_COLOUR_LIMIT,
            orders,
            yard,
        }
    }

    /// The listed sizes of new slabs, in the order in which they were given.
    pub fn sizes(&self) -> &[u16]
        ensures value { result.now ≡ self.now.sizes }
        ensures limits { IsInLimits self.now }
    {
        &self.sizes
    }

    /// The number of colours.
    pub fn colours(&self) -> u16
        ensures value { result ≡ self.now.colours }
        ensures limits { IsInLimits self.now }
    {
        self.colours
    }

    /// How many different colours the orders on one slab may have: 1 to 3.
    pub fn colour_limit(&self) -> u16
        ensures value { result ≡ self.now.colour_limit }
        ensures limits { IsInLimits self.now }
    {
        self.colour_limit
    }

    /// The orders. Calls number them from 0, texts from 1.
    pub fn orders(&self) -> &[Order]
        ensures value { result.now ≡ self.now.orders }
        ensures limits { IsInLimits self.now }
    {
        &self.orders
    }

    /// The sizes of the surplus slabs. Calls number them from 0, texts from 1.
    pub fn yard(&self) -> &[u16]
        ensures value { result.now ≡ self.now.yard }
        ensures limits { IsInLimits self.now }
    {
        self.yard.sizes()
    }

    /// The bars: pairs of an order and a surplus slab on which it mustn't lie, in the order in which they were given.
    pub fn bars(&self) -> &[(u16, u16)]
        ensures value { result.now ≡ self.now.bars }
        ensures limits { IsInLimits self.now }
    {
        self.yard.bars()
    }

    /// Whether an order mustn't lie on a surplus slab: told at once, however many bars there are.
    pub fn is_barred(&self, order: u16, slab: u16) -> bool
        ensures { result ≡ is_barred_from self.now order (Old slab) }
    {
        self.yard.is_barred(order, slab)
    }

    /// What a slab can hold: its size, or 0 where the yard has no surplus slab of its number.
    pub fn size_of(&self, kind: Kind) -> u16
        ensures value { result ≡ size_of_kind self.now kind }
        ensures small { IsInStock self.now kind → result ≤ most_weight }
    {
        // It tells that the listed sizes are within the limits.
        let _sizes = self.sizes();
        match kind {
            Kind::New(size) => size,
            Kind::Old(slab) => self.yard().get(usize::from(slab)).copied().unwrap_or(0),
        }
    }

    /// Replaces the yard. Its bars are of orders of this mill. All else stays.
    pub fn put_yard(&mut self, yard: Yard)
        requires { AreBarsAmong (length self.old.orders) yard.bars }
        ensures { self.new ≡ with_yard self.old yard }
    {
        self.yard = yard;
    }

    /// Lets the orders on one slab have so many different colours, 1 to 3. All else stays.
    pub fn set_colour_limit(&mut self, limit: u16)
        requires { IsBetween 1 most_colour_limit limit }
        ensures { self.new ≡ record self.old { colour_limit = limit } }
    {
        self.colour_limit = limit;
    }
}
