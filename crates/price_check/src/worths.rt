//! What the groups of each colour are worth.
ghost use Rattle.std.specs.Prelude.{◌≡◌, ◌+◌, ◌^◌, ◌<◌, ◌≤◌, pos, length, unsigned_abs, vec_capacity};
ghost use Rattle.mill_model.specs.Mill.{most_colours};
ghost use Rattle.std.proofs.Math.ListN.{replicate};
ghost use Rattle.pricing_laws.specs.Worths.{worth_at};
ghost use Rattle.pricing_laws.specs.Frames.{AreGroupsIn, AreWorthsIn};
ghost use Rattle.price_check.specs.Leaves.{problem_of};

use crate::groups::Groups;
use crate::leaf::Leaf;

// Fills a list with a 0 for each of so many colours, and one more.
fn clear_worths(colours: u16, worths: &mut Vec<i128>)
    requires { colours + 1 ≤ vec_capacity worths.old }
    ensures items { worths.new.items ≡ replicate (colours + 1) (pos 0) }
    ensures room { vec_capacity worths.new ≡ vec_capacity worths.old }
{
    worths.clear();
    for _ in 0..usize::from(colours) + 1 {
        worths.push_reserved(0);
    }
}

impl Leaf<'_> {
    // What a group is worth: what it gains, without the loss that its weight saves.
    fn worth(&self, groups: &Groups, head: usize) -> i128
        requires groups { AreGroupsIn (problem_of self.now) groups.now }
        requires head { head < length self.now.mill.now.orders }
        ensures worth { result ≡ worth_at self.now.quote.now groups.now head }
        ensures small { unsigned_abs result ≤ 2 ^ 86 }
    {
        let saved = i128::from(self.quote.lambda()) * i128::from(groups.weight(head));
        groups.gain(head) - saved
    }

    // For each colour, the positive worths of the groups whose head has it, summed up.
    pub(crate) fn fill_worths(&self, groups: &Groups, worths: &mut Vec<i128>)
        requires groups { AreGroupsIn (problem_of self.now) groups.now }
        requires room { most_colours + 1 ≤ vec_capacity worths.old }
        ensures worths { AreWorthsIn (problem_of self.now) groups.now worths.new.items }
        ensures room { vec_capacity worths.new ≡ vec_capacity worths.old }
    {
        clear_worths(self.mill.colours(), worths);
        let mut at = self.mill.orders().len();
        while at > 0 {
            at -= 1;
            let colour = self.mill.orders()[at].colour as usize;
            worths[colour] = worths[colour] + self.worth(groups, at).max(0);
        }
    }
}
