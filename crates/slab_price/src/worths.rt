//! What the groups of each colour are worth.
ghost use Rattle.std.specs.Prelude.{◌≡◌, ◌^◌, ◌<◌, ◌≤◌, IfOk, length, unsigned_abs};
ghost use Rattle.pricing_laws.specs.Worths.{worth_at};
ghost use Rattle.pricing_laws.specs.Frames.{AreGroupsIn, AreWorthsIn};
ghost use Rattle.slab_price.specs.Tasks.{problem_of};

use crate::groups::Groups;
use crate::task::Task;
use std::alloc::{AllocError, Global};

impl Task<'_> {
    // What a group is worth: what it gains, without the loss that its weight saves.
    fn worth(&self, groups: &Groups, head: usize) -> i128
        requires groups { AreGroupsIn (problem_of self.now) groups.now }
        requires head { head < length self.now.mill.now.orders }
        ensures worth { result ≡ worth_at self.now.prices.now groups.now head }
        ensures small { unsigned_abs result ≤ 2 ^ 86 }
    {
        let saved = i128::from(self.prices.lambda()) * i128::from(groups.weight(head));
        groups.gain(head) - saved
    }

    // For each colour, the positive worths of the groups whose head has it, summed up.
    pub(crate) fn worths(&self, alloc: Global, groups: &Groups) -> Result<Vec<i128>, AllocError>
        requires { AreGroupsIn (problem_of self.now) groups.now }
        ensures { IfOk result (λ worths. AreWorthsIn (problem_of self.now) groups.now worths.items) }
    {
        let mut worths = vec![in alloc; 0i128; self.mill.colours() as usize + 1]?;
        let mut at = self.mill.orders().len();
        while at > 0 {
            at -= 1;
            let colour = self.mill.orders()[at].colour as usize;
            worths[colour] = worths[colour] + self.worth(groups, at).max(0);
        }
        Ok(worths)
    }
}
