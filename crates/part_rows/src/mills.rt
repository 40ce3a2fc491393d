//! Mills by their files.
use mill_model::Mill;
use mill_read::{read_orders, read_yard};
use std::alloc::Global;
use std::test::Fail;

// Three orders of weight 3 and of three colours, which fill a slab together.
pub(crate) const THREE_COLOURS: &str = "1 9 3 3 3 1 3 2 3 3";

// Three orders of weight 5, of which two fill a slab.
pub(crate) const THREE_FIVES: &str = "1 10 1 3 5 1 5 1 5 1";

// Two orders of weight 5, which fill a slab.
pub(crate) const TWO_FIVES: &str = "1 10 1 2 5 1 5 1";

// Two orders of weight 4, each of which fills a small slab.
pub(crate) const TWO_FOURS: &str = "2 4 10 1 2 4 1 4 1";

// No surplus slab.
pub(crate) const NO_YARD: &str = "0";

// The mill of an order file and a yard file, with so many colours on a slab, at least 1 and at most 3.
pub(crate) fn mill_of(alloc: Global, orders: &str, yard: &str, colours: u16) -> Result<Mill, Fail> {
    let mut mill = read_orders(alloc, orders.as_bytes())?;
    let yard = read_yard(alloc, &mill, yard.as_bytes())?;
    mill.put_yard(yard);
    mill.set_colour_limit(colours.clamp(1, 3));
    Ok(mill)
}
