ghost use Rattle.std.specs.Prelude.{◌≡◌, ◌+◌, ◌*◌, ◌^◌, ◌<◌, length, All, IfOk, OnOk};
ghost use Rattle.mill_model.specs.Mill.{IsBetween, IsInLimits, most_weight};
ghost use Rattle.mill_read.specs.Reading.{GivesAt, list_at};
ghost use Rattle.mill_read.specs.OrderFile.{order_at, order_file, IsBare};
ghost use Rattle.mill_read.specs.Gives.{Gives, GivesAll};

use crate::fault::{TextError, TextFault, Why};
use crate::lists::numbers;
use crate::words::Words;
use mill_model::{MOST_COLOURS, MOST_ORDERS, MOST_SIZES, MOST_WEIGHT, Mill, Order};
use std::alloc::Global;

// Reads a weight and a colour.
#[tactic(auto, unfolding(crate::specs::OrderFile::order_at))]
fn order(words: &mut Words<'_>, colours: u16) -> Result<Order, TextFault>
    requires { words.old.number < 2 ^ 30 }
    ensures given { GivesAt result words.new (order_at colours words.old) }
    ensures weight { IfOk result (λ o. IsBetween 1 most_weight o.weight) }
    ensures colour { IfOk result (λ o. IsBetween 1 colours o.colour) }
    ensures number { OnOk result (words.new.number ≡ words.old.number + 2) }
{
    let weight = words.number(Why::Range, 1, MOST_WEIGHT)?;
    let colour = words.number(Why::Colour, 1, colours)?;
    Ok(Order { weight, colour })
}

// Reads so many orders.
fn orders(
    alloc: Global,
    words: &mut Words<'_>,
    count: u16,
    colours: u16,
) -> Result<Vec<Order>, TextError>
    requires { words.old.number + 2 * count < 2 ^ 30 }
    ensures given { Gives (λ v. v.items) result words.new (list_at (order_at colours) count words.old) }
    ensures weights { IfOk result (λ v. All (λ o. IsBetween 1 most_weight o.weight) v.items) }
    ensures colours { IfOk result (λ v. All (λ o. IsBetween 1 colours o.colour) v.items) }
    ensures count { IfOk result (λ v. length v.items ≡ count) }
    ensures number { OnOk result (words.new.number ≡ words.old.number + 2 * count) }
{
    let mut list = Vec::with_capacity(alloc, usize::from(count))?;
    for _ in 0..count {
        list.push_reserved(order(words, colours)?);
    }
    Ok(list)
}

/// Reads an order file: the number of sizes (1 to 100) and the sizes (each 1 to 10,000), the number of colours (1 to 250),
/// the number of orders (0 to 250), and a weight (1 to 10,000) and a colour for each. The mill has
/// an empty yard, and takes two colours on a slab.
///
/// A file that isn't so is refused with its first word that can't stand: `Missing` where it ends too early, `NotNumber`,
/// `Range`, `Colour` for a colour above the number of colours (or 0), and `Extra` for a word after the last.
#[tactic(auto, unfolding(crate::specs::OrderFile::mill_at))]
pub fn read_orders(alloc: Global, bytes: &[u8]) -> Result<Mill, TextError>
    ensures exact { GivesAll result (order_file bytes.now) }
    ensures limits { IfOk result IsInLimits }
    ensures bare { IfOk result IsBare }
{
    let mut words = Words::new(bytes);
    let size_count = words.number(Why::Range, 1, MOST_SIZES)?;
    let sizes = numbers(alloc, &mut words, size_count, 1, MOST_WEIGHT)?;
    let colours = words.number(Why::Range, 1, MOST_COLOURS)?;
    let order_count = words.number(Why::Range, 0, MOST_ORDERS)?;
    let orders = orders(alloc, &mut words, order_count, colours)?;
    words.end()?;
    Ok(Mill::new(sizes, colours, orders))
}
