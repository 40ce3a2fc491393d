//! Decisions about the first orders of a mill.
ghost use Rattle.std.specs.Prelude.{◌≡◌, IfOk, length};

use mill_model::Mill;
use slab_decide::Decisions;
use std::alloc::{AllocError, Global};

// What is decided of the first two orders, and of the first order and the first surplus slab, where the mill has them.
pub(crate) fn decisions_of(
    alloc: Global,
    mill: &Mill,
    pair: Option<bool>,
    put: Option<bool>,
) -> Result<Decisions, AllocError>
    ensures orders { IfOk result (λ decisions. decisions.orders ≡ length mill.now.orders) }
    ensures yard { IfOk result (λ decisions. decisions.yard ≡ length mill.now.yard) }
{
    let orders = mill.orders().len() as u16;
    let yard = mill.yard().len() as u16;
    let mut decisions = Decisions::new(alloc, orders, yard)?;
    if let Some(yes) = pair {
        if orders > 1 {
            let _clash = decisions.pair(0, 1, yes);
        }
    }
    if let Some(yes) = put {
        if orders > 0 && yard > 0 {
            let _clash = decisions.put(0, 0, yes);
        }
    }
    Ok(decisions)
}
