ghost use Rattle.std.specs.Prelude.{◌≡◌, IfOk};

use mill_model::{Mill, Yard};
use std::alloc::{AllocError, Global};

// The same mill, in memory of its own.
pub(crate) fn copy_of(alloc: Global, mill: &Mill) -> Result<Mill, AllocError>
    ensures { IfOk result (λ copy. copy ≡ mill.now) }
{
    let sizes = Vec::from_slice(alloc, mill.sizes())?;
    let orders = Vec::from_slice(alloc, mill.orders())?;
    let yard = Vec::from_slice(alloc, mill.yard())?;
    let bars = Vec::from_slice(alloc, mill.bars())?;
    let mut copy = Mill::new(sizes, mill.colours(), orders);
    copy.set_colour_limit(mill.colour_limit());
    copy.put_yard(Yard::new(yard, bars));
    Ok(copy)
}
