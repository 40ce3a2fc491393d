//! What orders gain at the prices of a leaf.
ghost use Rattle.std.specs.Prelude.{◌≡◌, ◌<◌, ◌≤◌, ◌^◌, pos, ◌+ℤ◌, ◌*ℤ◌, unsigned_abs, length};
ghost use Rattle.mill_model.specs.Mill.{most_weight};
ghost use Rattle.mill_model.specs.Prices.{IsPrice};
ghost use Rattle.pricing_laws.specs.Gains.{gain_of};

use crate::quote::Quote;
use mill_model::Mill;

// A price, and another price so many times.
fn with_multiple(price: i64, each: i64, amount: u16) -> i128
    requires price { IsPrice price }
    requires each { IsPrice each }
    requires amount { amount ≤ most_weight }
    ensures value { result ≡ price +ℤ each *ℤ pos amount }
    ensures small { unsigned_abs result ≤ 2 ^ 76 }
{
    let multiple = i128::from(each) * i128::from(amount);
    i128::from(price) + multiple
}

// What an order gains: its price, and the price of the loss that its weight saves.
pub(crate) fn gain_of(mill: &Mill, quote: &Quote, order: usize) -> i128
    requires order { order < length mill.now.orders }
    requires count { length quote.now.pi ≡ length mill.now.orders }
    ensures value { result ≡ gain_of mill.now quote.now order }
    ensures small { unsigned_abs result ≤ 2 ^ 76 }
{
    let weight = mill.orders()[order].weight;
    let price = quote.pi()[order];
    with_multiple(price, quote.lambda(), weight)
}
