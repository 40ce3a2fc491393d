//! The plan of groups.
ghost use Rattle.std.specs.Prelude.{◌≡◌, ◌≤◌, IfOk, length};
ghost use Rattle.slab_node.specs.Grouped.{IsGrouping};
ghost use Rattle.slab_node.specs.Built.{IsBuilt};

use mill_model::{Kind, Plan};
use std::alloc::{AllocError, Global};

// The plan of groups, each known by its first order and lying on that order's kind of slab.
#[tactic(auto, using(crate::proofs::Building::built_none))]
pub(crate) fn plan_by(alloc: Global, heads: &[u16], kinds: &[Kind]) -> Result<Plan, AllocError>
    requires heads { IsGrouping heads.now }
    requires kinds { length kinds.now ≡ length heads.now }
    requires few { length heads.now ≤ 250 }
    ensures { IfOk result (λ p. IsBuilt heads.now kinds.now (length heads.now) p.kinds p.place) }
{
    let mut used = Vec::new(alloc);
    let mut place = Vec::new(alloc);
    for (o, &head) in heads.iter().enumerate() {
        if head as usize == o {
            place.push(used.len() as u16)?;
            used.push(kinds[o])?;
        } else {
            let there: u16 = place[head as usize];
            place.push(there)?;
        }
    }
    Ok(Plan::new(used, place))
}
