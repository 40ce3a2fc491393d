//! A place for each question of a mill.
ghost use Rattle.std.specs.Prelude.{◌≡◌, ◌≤◌};
ghost use Rattle.mill_model.specs.Mill.{most_orders, most_slabs};
ghost use Rattle.mill_model.specs.Decisions.{IsAskAmong};
ghost use Rattle.mill_model.specs.Trees.{pair_count, asks_among};
ghost use Rattle.price_check.specs.Marks.{place_of};

use mill_model::Ask;

// How many pairs so many orders have.
fn pair_count(orders: usize) -> usize
    requires { orders ≤ most_orders }
    ensures { result ≡ pair_count orders }
{
    orders * orders.saturating_sub(1) / 2
}

// How many questions there are.
pub(crate) fn ask_count(orders: usize, slabs: usize) -> usize
    requires few_orders { orders ≤ most_orders }
    requires few_slabs { slabs ≤ most_slabs }
    ensures { result ≡ asks_among orders slabs }
{
    pair_count(orders) + orders * slabs
}

// The place of a question among all questions.
pub(crate) fn place_of(orders: usize, slabs: usize, ask: Ask) -> usize
    requires asked { IsAskAmong orders slabs ask }
    requires few_orders { orders ≤ most_orders }
    requires few_slabs { slabs ≤ most_slabs }
    ensures { result ≡ place_of orders slabs ask }
{
    match ask {
        Ask::Pair(i, j) => pair_count(j as usize) + i as usize,
        Ask::Put(o, s) => pair_count(orders) + (o as usize * slabs + s as usize),
    }
}
