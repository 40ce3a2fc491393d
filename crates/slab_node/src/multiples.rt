//! A cover's multipliers over one denominator.
ghost use Rattle.std.specs.Prelude.{◌≡◌, ◌≤◌, IfOk, IfSome, IfNone};
ghost use Rattle.slab_counter.specs.Counter.{Rose};
ghost use Rattle.slab_relax.specs.PoolCovers.{multipliers};
ghost use Rattle.slab_node.specs.Choices.{AreMultiples};

use slab_columns::ColId;
use slab_frac::{Frac, Wides, scale_all};
use std::alloc::{AllocError, Global};

/// Whole numbers, which divided by `whole` are the multipliers of a cover.
#[derive(Drop)]
pub(crate) struct Multiples {
    pub times: Vec<i64>,
    pub whole: u64,
}

// The multipliers alone.
fn multipliers(alloc: Global, cover: &[(ColId, Frac)]) -> Result<Vec<Frac>, AllocError>
    ensures { IfOk result (λ list. list.items ≡ multipliers cover.now) }
{
    let mut list = Vec::with_capacity(alloc, cover.len())?;
    for part in cover {
        list.push(part.1)?;
    }
    Ok(list)
}

impl Multiples {
    // The multipliers brought to whole numbers, or none where a number leaves its range.
    pub(crate) fn new(
        alloc: Global,
        cover: &[(ColId, Frac)],
        wides: &mut Wides,
    ) -> Result<Option<Multiples>, AllocError>
        ensures some { IfOk result (λ answer. IfSome answer
            (λ m. AreMultiples cover.now m.whole m.times.items)) }
        ensures none { IfOk result (λ answer. IfNone answer (Rose wides.old wides.new)) }
        ensures grows { wides.old ≤ wides.new }
    {
        let list = multipliers(alloc, cover)?;
        let mut times = vec![in alloc; 0; list.len()]?;
        let Some(denominator) = scale_all(&list, wides, &mut times) else {
            return Ok(None);
        };
        Ok(Some(Multiples {
            times,
            whole: denominator.unsigned_abs(),
        }))
    }
}
