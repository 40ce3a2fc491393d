//! The least size that holds a load.
use crate::mills::{NO_YARD, mill_of};
use loss_table::LossTable;
use std::test::Fail;

// The sizes aren't sorted, and one stands twice.
#[test]
fn a_load_has_a_least_size(rt: HostRuntime) -> Result<(), Fail> {
    let mill = mill_of(rt.alloc(), "4 3 10 4 10 1 0", NO_YARD, 2)?;
    let table = LossTable::new(rt.alloc(), &mill)?;
    for (load, size) in [
        (0, Some(3)),
        (1, Some(3)),
        (3, Some(3)),
        (4, Some(4)),
        (5, Some(10)),
        (10, Some(10)),
        (11, None),
        (u32::MAX, None),
    ] {
        assert!(rt; table.size_for(load) == size, "{load}");
    }
    Ok(())
}
