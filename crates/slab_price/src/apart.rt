//! Groups that the decisions keep apart.
ghost use Rattle.std.specs.Prelude.{◌≡◌, ◌<◌, true, ℕ};
ghost use Rattle.std.specs.Bool.{OnTrue};
ghost use Rattle.mill_model.specs.Columns.{has};
ghost use Rattle.pricing_laws.specs.Groups.{AreApart, IsApart};

use mill_model::Ask;
use slab_decide::Decisions;

// Whether the decisions keep an order apart from a later one.
fn keeps_apart(decisions: &Decisions, first: u16, second: u16) -> bool
    requires order { first < second }
    requires orders { second < decisions.now.orders }
    ensures { OnTrue result (AreApart decisions.now.list first second) }
{
    decisions.follows(Ask::Pair(first, second)) == Some(false)
}

// Whether the decisions keep two orders apart.
fn are_apart(decisions: &Decisions, one: u16, other: u16) -> bool
    requires one { one < decisions.now.orders }
    requires other { other < decisions.now.orders }
    ensures { OnTrue result (AreApart decisions.now.list one other) }
{
    if one < other {
        return keeps_apart(decisions, one, other);
    }
    other < one && keeps_apart(decisions, other, one)
}

// Whether the decisions keep a head apart from one of some others.
pub(crate) fn is_apart(decisions: &Decisions, others: &[u16], head: u16) -> bool
    requires head { head < decisions.now.orders }
    requires others { (other : ℕ) → has others.now other ≡ true → other < decisions.now.orders }
    ensures { OnTrue result (IsApart decisions.now.list others.now head) }
{
    for &other in others {
        if are_apart(decisions, other, head) {
            return true;
        }
    }
    false
}
