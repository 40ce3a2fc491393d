ghost use Rattle.std.specs.Prelude.{◌≡◌, ◌<◌, All, IfOk, IfSome, IfNone, OnOk};
ghost use Rattle.mill_model.specs.LeastSizes.{IsLeastSize};
ghost use Rattle.loss_table.specs.Tables.{IsTable};

use crate::least_size::least_size;
use mill_model::Mill;
use std::alloc::{AllocError, Global};
use std::marker::Model;

/// The least size of a mill for each load, worked out once. It is seen as the list of the mill's sizes.
#[derive(Drop)]
pub struct LossTable {
    // What the contracts see: no code reads it.
    sizes: Vec<u16>,
    least: Vec<u16>,
}

impl Model for LossTable {
    ghost use Rattle.std.specs.Prelude.{ℕ, List};
    ghost use Rattle.loss_table.specs.Tables.{IsTable};

    ghost Value = { List ℕ };

    ghost view = { λ t. t.sizes.items };

    ghost invariant = { λ t. IsTable t.sizes.items t.least.items };
}

// The least size for each load from 0 to the greatest size.
fn table_of(alloc: Global, sizes: &[u16]) -> Result<Vec<u16>, AllocError>
    ensures { IfOk result (λ table. IsTable sizes.now table.items) }
{
    let mut table = Vec::new(alloc);
    for load in 0..65_536 {
        match least_size(sizes, load) {
            Some(size) => table.push(size)?,
            None => return Ok(table),
        }
    }
    Ok(table)
}

impl LossTable {
    /// The table of the mill's sizes. Its only error is want of memory.
    pub fn new(alloc: Global, mill: &Mill) -> Result<LossTable, AllocError>
        ensures { IfOk result (λ table. table ≡ mill.now.sizes) }
    {
        let sizes = mill.sizes().to_vec(alloc)?;
        let least = table_of(alloc, &sizes)?;
        Ok(LossTable { sizes, least })
    }

    /// The least listed size that is at least the load, `None` where no listed size is. A load of 0 is held by each
    /// size, so the answer is then the least of all. It takes no memory and constant time.
    pub fn size_for(&self, load: u32) -> Option<u16>
        ensures some { IfSome result (IsLeastSize self.now load) }
        ensures none { IfNone result (All (λ size. size < load) self.now) }
    {
        self.least.get(load as usize).copied()
    }
}
