//! Groups that decisions keep apart.
ghost use Rattle.std.specs.Prelude.{◌≡◌, ◌*◌, ◌<◌, ◌≤◌, ℕ, List, true, false, length};
ghost use Rattle.mill_model.specs.Mill.{most_orders};
ghost use Rattle.std.specs.Bool.{OnTrue};
ghost use Rattle.mill_model.specs.declared.ask.Ask.{Ask};
ghost use Rattle.mill_model.specs.Columns.{Column, has};
ghost use Rattle.mill_model.specs.Decisions.{Decision, agrees, column_agrees};
ghost use Rattle.pricing_laws.specs.Groups.{AreHeads, IsApart};
ghost use Rattle.pricing_laws.specs.Groupings.{AreBefore};
ghost use Rattle.price_check.specs.Apartness.{AreMarkedApart, StayMarked};

use crate::search::Search;
use crate::trail::Trail;
use mill_model::Ask;

// Marks each two groups that a decision keeps apart.
pub(crate) fn fill_apart(trail: &Trail, heads: &[u16], apart: &mut [bool])
    requires heads { AreHeads trail.now.decisions heads.now }
    requires few { length heads.now ≤ most_orders }
    requires size { length apart.old ≡ length heads.now * length heads.now }
    ensures { AreMarkedApart trail.now.decisions (length heads.now) apart.new }
{
    apart.fill(false);
    for (ask, answer) in trail.decisions() {
        keep_apart(*ask, *answer, heads, apart);
    }
}

// Marks the groups of two orders where a decision keeps them apart.
fn keep_apart(ask: Ask, answer: bool, heads: &[u16], apart: &mut [bool])
    requires before { AreBefore heads.now }
    requires few { length heads.now ≤ most_orders }
    requires size { length apart.old ≡ length heads.now * length heads.now }
    ensures size { length apart.new ≡ length apart.old }
    ensures apart { StayMarked heads.now (ask, answer) apart.old apart.new }
{
    if let (Ask::Pair(i, j), false) = (ask, answer) {
        mark_pair(i, j, heads, apart);
    }
}

// Marks the groups of two orders, if there are such orders.
fn mark_pair(i: u16, j: u16, heads: &[u16], apart: &mut [bool])
    requires before { AreBefore heads.now }
    requires few { length heads.now ≤ most_orders }
    requires size { length apart.old ≡ length heads.now * length heads.now }
    ensures size { length apart.new ≡ length apart.old }
    ensures apart { StayMarked heads.now (Ask.Pair i j, false) apart.old apart.new }
{
    let orders = heads.len();
    let (i, j) = (usize::from(i), usize::from(j));
    if i >= orders || j >= orders {
        return;
    }
    let first = usize::from(heads[i]);
    let second = usize::from(heads[j]);
    apart[first * orders + second] = true;
    apart[second * orders + first] = true;
}

impl Search<'_> {
    // Whether a decision keeps a head apart from one of some others.
    pub(crate) fn is_apart(&self, others: &[u16], head: u16) -> bool
        requires head { head < length self.now.leaf.mill.now.orders }
        requires others { (other : ℕ) → has others.now other ≡ true
            → other < length self.now.leaf.mill.now.orders }
        ensures { OnTrue result (IsApart self.now.leaf.trail.now.decisions others.now head) }
    {
        let orders = self.leaf.mill.orders().len();
        for &other in others {
            if self.frame.apart[usize::from(other) * orders + usize::from(head)] {
                return true;
            }
        }
        false
    }
}
