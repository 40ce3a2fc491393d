//! What orders weigh, and what slabs lose with them.
ghost use Rattle.std.specs.Prelude.{◌≡◌, ◌≤◌, ◌-◌, ◌^◌, length, min};
ghost use Rattle.mill_model.specs.Mill.{most_loss, most_orders, most_weight};
ghost use Rattle.mill_model.specs.Columns.{IsInStock, column_of, load, loss_of as loss_of_column, order_at};
ghost use Rattle.mill_model.specs.Plain.{greatest_size as greatest, total_weight as weight_of_orders};

use crate::{Kind, MOST_ORDERS, Mill};

impl Mill {
    /// What all orders weigh together: at most 2,500,000.
    pub fn total_weight(&self) -> u32
        ensures value { result ≡ weight_of_orders self.now }
        ensures small { result ≤ most_loss }
    {
        let orders = self.orders();
        prove!(orders.len() <= MOST_ORDERS as usize);
        let mut sum: u32 = 0;
        for order in orders {
            sum += u32::from(order.weight);
        }
        sum
    }

    /// The greatest listed size of new slabs.
    pub fn greatest_size(&self) -> u16
        ensures value { result ≡ greatest self.now }
        ensures small { result ≤ most_weight }
    {
        let sizes = self.sizes();
        let mut greatest = 0;
        for size in sizes {
            greatest = greatest.max(*size);
        }
        greatest
    }

    /// What an order weighs, and 0 where the mill has no order of this number.
    pub fn weight_of(&self, order: u16) -> u16
        ensures value { result ≡ (order_at self.now order).weight }
        ensures small { result ≤ most_weight }
    {
        match self.orders().get(usize::from(order)) {
            Some(known) => known.weight,
            None => 0,
        }
    }

    /// The colour of an order, and 0 where the mill has no order of this number.
    pub fn colour_of(&self, order: u16) -> u16
        ensures { result ≡ (order_at self.now order).colour }
    {
        match self.orders().get(usize::from(order)) {
            Some(known) => known.colour,
            None => 0,
        }
    }

    /// What these orders weigh together, each as often as it is listed. A sum above 2^32 - 1 is told as this number, which
    /// 250 orders don't reach.
    pub fn load_of(&self, orders: &[u16]) -> u32
        ensures capped { result ≡ min (load self.now orders.now) (2 ^ 32 - 1) }
        ensures value { length orders.now ≤ most_orders → result ≡ load self.now orders.now }
    {
        let mut sum: u32 = 0;
        for order in orders {
            sum = sum.saturating_add(u32::from(self.weight_of(*order)));
        }
        sum
    }

    /// What a slab of this kind loses where these orders lie on it: what its size is above their load.
    pub fn loss_of(&self, kind: Kind, orders: &[u16]) -> u16
        ensures value { result ≡ loss_of_column self.now (column_of kind orders.now) }
        ensures small { IsInStock self.now kind → result ≤ most_weight }
    {
        let load = self.load_of(orders);
        let size = self.size_of(kind);
        u32::from(size).saturating_sub(load) as u16
    }
}
