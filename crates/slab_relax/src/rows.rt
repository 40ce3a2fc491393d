//! The rows of a node's master.
ghost use Rattle.std.specs.Prelude.{◌≡◌, IfOk};
ghost use Rattle.mill_model.specs.Limits.{number_of};
ghost use Rattle.slab_relax.specs.Rows.{rows_of};

use mill_model::{Limits, Mill};
use slab_master::Sense;
use std::alloc::{AllocError, Global};

// A limit's number, and 0 for one that is missing.
fn number_of(limit: Option<i64>) -> i64
    ensures { result ≡ number_of limit }
{
    match limit {
        Some(number) => number,
        None => 0,
    }
}

// A row for each order, one for each surplus slab, and one for each limit, which stays empty where the limit is missing.
#[tactic(auto, using(crate::proofs::Putting::rows_more, crate::proofs::Putting::rows_all))]
pub(crate) fn rows_of(
    alloc: Global,
    mill: &Mill,
    limits: Limits,
) -> Result<Vec<(Sense, i64)>, AllocError>
    ensures { IfOk result (λ rows. rows.items ≡ rows_of mill.now limits) }
{
    let mut rows = vec![in alloc; (Sense::Equal, 1); mill.orders().len()]?;
    for _slab in 0..mill.yard().len() {
        rows.push((Sense::AtMost, 1))?;
    }
    rows.push((Sense::AtMost, number_of(limits.loss)))?;
    rows.push((Sense::AtMost, number_of(limits.count)))?;
    Ok(rows)
}
