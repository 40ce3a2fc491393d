//! First fit.

ghost use Rattle.std.specs.Prelude.{◌≡◌};
ghost use Rattle.slab_start.specs.FirstFit.{can_start as can_start_within};

use crate::filling::fill;
use crate::weights::orders_by_weight;
use mill_model::{Mill, Plan, Starter};
use slab_filling::plan_of_slabs;
use std::alloc::{AllocError, Global};

/// First fit: the orders by falling weight, ties by number. Each goes on the first slab opened so far that takes it,
/// else on a new one, where fewer than the limit are open, else on the first free surplus slab that takes it. A slab
/// takes an order where the load stays within its size (for a new slab the greatest listed size), its colours within the
/// mill's limit, and the order isn't barred from it. At the end each new slab is of the least listed size that holds its
/// load.
#[derive(Clone, Copy, Debug)]
pub struct FirstFit;

impl FirstFit {
    /// First fit. It takes no memory.
    pub fn new() -> FirstFit {
        FirstFit
    }
}

impl Starter for FirstFit {
    ghost use Rattle.std.specs.Prelude.{◌≡◌, Some, IfOk, IfSome};
    ghost use Rattle.mill_model.specs.Starts.{IsStart};
    ghost use Rattle.slab_start.specs.FirstFit.{first_fit};

    ghost told = { λ _. Some first_fit };

    /// The first-fit plan, or none where there is none. Its only error is want of memory.
    fn start(
        &mut self,
        alloc: Global,
        mill: &Mill,
        count: Option<i64>,
    ) -> Result<Option<Plan>, AllocError>
        ensures legal { IfOk result (λ answer. IfSome answer (IsStart mill.now count)) }
        ensures as_told { IfOk result (λ answer. answer ≡ first_fit mill.now count) }
    {
        if !can_start(count) {
            return Ok(None);
        }
        let orders = orders_by_weight(alloc, mill)?;
        match fill(alloc, mill, count, &orders)? {
            Some(slabs) => Ok(Some(plan_of_slabs(alloc, mill, slabs)?)),
            None => Ok(None),
        }
    }
}

// Whether a plan may have so many new slabs: fewer than none it can't have.
fn can_start(count: Option<i64>) -> bool
    ensures { result ≡ can_start_within count }
{
    match count {
        None => true,
        Some(limit) => limit >= 0,
    }
}
