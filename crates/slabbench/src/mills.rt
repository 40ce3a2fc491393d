//! The mill of some files.

use mill_model::Mill;
use mill_read::{read_orders, read_yard};
use std::rt::Files;
use std::{fs, io};

/// The mill of an order file and a yard file, or `-` for none, with so many colours on a slab, if there is one.
pub fn read_mill<R: Files + AllocGlobal>(
    rt: &R,
    orders: &str,
    yard: &str,
    colours: &str,
) -> io::Result<Option<Mill>> {
    let orders = fs::read(rt, orders)?;
    let Ok(mut mill) = read_orders(rt.alloc(), &orders) else {
        return Ok(None);
    };
    if yard != "-" {
        let yard = fs::read(rt, yard)?;
        let Ok(yard) = read_yard(rt.alloc(), &mill, &yard) else {
            return Ok(None);
        };
        mill.put_yard(yard);
    }
    let limit: u16 = colours.parse().ok().unwrap_or(1);
    mill.set_colour_limit(limit.clamp(1, 3));
    Ok(Some(mill))
}
