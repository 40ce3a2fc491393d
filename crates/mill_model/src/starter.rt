//! What gives a search its first plan.
use crate::{Mill, Plan};
use std::alloc::{AllocError, Global};

/// Whatever proposes a plan from which a search may start.
pub trait Starter {
    ghost use Rattle.std.specs.Prelude.{◌≡◌, Option, ℤ, IfOk, IfSome};
    ghost use Rattle.mill_model.specs.Mill.{Mill};
    ghost use Rattle.mill_model.specs.Plans.{Plan};
    ghost use Rattle.mill_model.specs.Starts.{IsStart, IsAsTold};

    /// The answer for each mill and count limit, where the starter tells it.
    ghost told: { Self → Option (Mill → Option ℤ → Option Plan) };

    /// A legal plan in order with at most `count` new slabs, where that limit stands; or none, which any starter may answer.
    /// A starter that tells its answer gives that one. What it tells stays.
    fn start(
        &mut self,
        alloc: Global,
        mill: &Mill,
        count: Option<i64>,
    ) -> Result<Option<Plan>, AllocError>
        ensures legal { IfOk result (λ answer. IfSome answer (IsStart mill.now count)) }
        ensures as_told { IfOk result (IsAsTold (told self.old) mill.now count) }
        ensures tells { told self.new ≡ told self.old };
}
