//! What a script has given so far.
ghost use Rattle.std.specs.Prelude.{◌≡◌, ◌<◌, ◌≤◌, length, IfOk, OnOk, OnErr};
ghost use Rattle.mill_model.specs.Mill.{most_orders, most_sizes, most_slabs};
ghost use Rattle.session_script.specs.declared.line.Line.TheVariants as lines;
ghost use Rattle.session_script.specs.Mills.{nothing_given, given_after, session_mill};
ghost use Rattle.session_script.specs.Limits.{AreSizes, IsOrder};

use mill_model::{MOST_COLOURS, Mill, Order, Yard};
use std::alloc::{AllocError, Global};
use std::marker::Model;

/// What a script has given so far: sizes of new slabs, orders, and a yard without bars.
#[derive(Drop)]
pub struct SessionMill {
    sizes: Vec<u16>,
    orders: Vec<Order>,
    yard: Vec<u16>,
}

impl Model for SessionMill {
    ghost use Rattle.session_script.specs.Mills.{Given};
    ghost use Rattle.session_script.specs.Limits.{IsGiven};

    ghost Value = { Given };

    ghost view = { λ g. record { sizes = g.sizes.items; orders = g.orders.items; yard = g.yard.items } };

    ghost invariant = { λ g. IsGiven (record { sizes = g.sizes.items; orders = g.orders.items; yard = g.yard.items }) };
}

impl SessionMill {
    /// A mill of these sizes, without an order and with an empty yard.
    pub fn new(alloc: Global, sizes: Vec<u16>) -> SessionMill
        requires { AreSizes 1 most_sizes sizes.items }
        ensures { result ≡ given_after nothing_given (lines.Sizes sizes.items) }
    {
        SessionMill {
            sizes,
            orders: Vec::new(alloc),
            yard: Vec::new(alloc),
        }
    }

    /// How many orders stand.
    pub fn order_count(&self) -> u16
        ensures value { result ≡ length self.now.orders }
        ensures few { result ≤ most_orders }
    {
        self.orders.len() as u16
    }

    /// One more order, the last. After the only error, want of memory, nothing has changed.
    pub fn add(&mut self, order: Order) -> Result<(), AllocError>
        requires room { length self.old.orders < most_orders }
        requires order { IsOrder order }
        ensures added { OnOk result (self.new ≡ given_after self.old (lines.Add order)) }
        ensures kept { OnErr result (self.new ≡ self.old) }
    {
        self.orders.push(order)?;
        Ok(())
    }

    /// The order goes, and the later ones move up by one.
    pub fn remove(&mut self, order: u16)
        requires { order < length self.old.orders }
        ensures { self.new ≡ given_after self.old (lines.Remove order) }
    {
        self.orders.remove(usize::from(order));
    }

    /// The yard is replaced.
    pub fn put_yard(&mut self, sizes: Vec<u16>)
        requires { AreSizes 0 most_slabs sizes.items }
        ensures { self.new ≡ given_after self.old (lines.Yard sizes.items) }
    {
        self.yard = sizes;
    }

    /// The mill as it stands: 250 colours, two of them on a slab, and no bars.
    pub fn mill(&self, alloc: Global) -> Result<Mill, AllocError>
        ensures { IfOk result (λ mill. mill ≡ session_mill self.now) }
    {
        let mut mill = Mill::new(
            self.sizes.to_vec(alloc)?,
            MOST_COLOURS,
            self.orders.to_vec(alloc)?,
        );
        mill.put_yard(Yard::new(self.yard.to_vec(alloc)?, Vec::new(alloc)));
        Ok(mill)
    }
}
