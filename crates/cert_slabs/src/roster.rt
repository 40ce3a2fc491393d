//! The orders of a slab's line.
ghost use Rattle.std.specs.Prelude.{◌≡◌, ◌≤◌, ◌+◌, [], IfOk, IfSome, IfNone, drop, length, map, vec_capacity};
ghost use Rattle.std.specs.Bool.{OnTrue, OnFalse};
ghost use Rattle.cert_rules.specs.Numbers.{Names, index};
ghost use Rattle.cert_rules.specs.Slabs.{orders_on};
ghost use Rattle.cert_rules.specs.Spreads.{AreNamed};
ghost use Rattle.cert_slabs.specs.Roster.{AreListed};

use cert_view::Nums;
use mill_model::{MOST_ORDERS, Mill};
use std::alloc::{AllocError, Global};
use std::marker::Model;

// At most two numbers stand before the orders of a line.
const MOST_NUMBERS: usize = 252;

/// The orders that a line lists, read into memory that is taken once. It is seen as the orders that were read last.
#[derive(Drop)]
pub struct Roster {
    numbers: Vec<i64>,
    orders: Vec<u16>,
}

impl Model for Roster {
    ghost use Rattle.std.specs.Prelude.{ℕ, List, length, vec_capacity};
    ghost use Rattle.cert_slabs.specs.Roster.{HasRoom};

    ghost Value = { List ℕ };

    ghost view = { λ r. r.orders.items };

    ghost invariant = { λ r. HasRoom (length r.numbers.items) (vec_capacity r.orders) };
}

impl Roster {
    /// No orders, and the memory for those of any line.
    pub fn new(alloc: Global) -> Result<Roster, AllocError>
        ensures { IfOk result (λ r. r ≡ []) }
    {
        let numbers = vec![in alloc; 0; MOST_NUMBERS]?;
        let orders = Vec::with_capacity(alloc, usize::from(MOST_ORDERS))?;
        Ok(Roster { numbers, orders })
    }

    /// The orders.
    pub fn orders(&self) -> &[u16]
        ensures { result.now ≡ self.now }
    {
        &self.orders
    }

    /// Reads the orders that stand after the first so many numbers of a line. It answers true exactly where they are the
    /// mill's, by rising number.
    pub fn read(&mut self, mill: &Mill, skip: usize, numbers: &Nums<'_>) -> bool
        requires few { skip ≤ 2 }
        requires some { skip ≤ length numbers.now }
        ensures named { OnTrue result (AreNamed mill.now (drop skip numbers.now)) }
        ensures orders { OnTrue result (self.new ≡ orders_on (drop skip numbers.now)) }
        ensures unnamed { OnFalse result (AreNamed mill.now (drop skip numbers.now) → ⊥) }
    {
        let count = mill.orders().len();
        if numbers.len() > skip + count {
            return false;
        }
        read_orders(numbers, skip, count, &mut self.numbers, &mut self.orders)
    }
}

// Lists the orders that stand after the first so many numbers of a line, until one doesn't rise or isn't one of so many.
fn read_orders(
    numbers: &Nums<'_>,
    skip: usize,
    count: usize,
    spare: &mut [i64],
    orders: &mut Vec<u16>,
) -> bool
    requires few { count ≤ 250 }
    requires some { skip ≤ length numbers.now }
    requires fit { length numbers.now ≤ skip + count }
    requires spare { length numbers.now ≤ length spare.old }
    requires room { 250 ≤ vec_capacity orders.old }
    ensures listed { OnTrue result (AreListed count 0 (drop skip numbers.now)) }
    ensures orders { OnTrue result (orders.new.items ≡ orders_on (drop skip numbers.now)) }
    ensures unlisted { OnFalse result (AreListed count 0 (drop skip numbers.now) → ⊥) }
    ensures room { 250 ≤ vec_capacity orders.new }
{
    let read = &mut spare[..numbers.len()];
    numbers.copy_to(read);
    list_orders(&read[skip..], count, orders)
}

// Lists the orders that numbers name, until one doesn't rise or isn't one of so many.
fn list_orders(numbers: &[i64], count: usize, orders: &mut Vec<u16>) -> bool
    requires few { count ≤ 250 }
    requires fit { length numbers.now ≤ count }
    requires room { 250 ≤ vec_capacity orders.old }
    ensures listed { OnTrue result (AreListed count 0 numbers.now) }
    ensures orders { OnTrue result (orders.new.items ≡ orders_on numbers.now) }
    ensures unlisted { OnFalse result (AreListed count 0 numbers.now → ⊥) }
    ensures room { 250 ≤ vec_capacity orders.new }
{
    orders.clear();
    let mut low: u16 = 0;
    for number in numbers {
        let Some(order) = named_order(*number, low, count) else {
            return false;
        };
        orders.push_reserved(order);
        low = order + 1;
    }
    true
}

// The order that a number names, if it names one of so many, from one on.
fn named_order(number: i64, low: u16, count: usize) -> Option<u16>
    requires { count ≤ 250 }
    ensures named { IfSome result (λ o. Names count number × (index number ≡ o) × (low ≤ o)) }
    ensures unnamed { IfNone result (Names count number → low ≤ index number → ⊥) }
{
    if number < 1 || number > count as i64 {
        return None;
    }
    let order = (number - 1) as u16;
    if order < low {
        return None;
    }
    Some(order)
}
