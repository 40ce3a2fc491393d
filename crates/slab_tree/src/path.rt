//! The decisions above a node, as a list that grows at its end.

ghost use Rattle.std.specs.Prelude.{◌≡◌, ◌∷◌, reverse, true, false, MatchOption};
ghost use Rattle.mill_model.specs.Paths.{next_branch as branch_after};
ghost use Rattle.mill_model.specs.Decisions.{IsAskAmong};
ghost use Rattle.slab_node.specs.Turns.{IsUndecided};
ghost use Rattle.slab_tree.specs.Standing.{IsOpenPath};

use mill_model::Ask;
use slab_decide::Decisions;

// Goes on to the next branch. It answers false where none is left.
pub(crate) fn next_branch(path: &mut Vec<(Ask, bool)>) -> bool
    ensures { MatchOption (branch_after (reverse path.old.items)) (result ≡ false) (λ branch. (result ≡ true) × (reverse path.new.items ≡ branch)) }
{
    while let Some((ask, yes)) = path.pop() {
        if yes {
            path.push_reserved((ask, false));
            return true;
        }
    }
    false
}

// Adds a decision about an open question.
pub(crate) fn decide(decisions: &mut Decisions, ask: Ask, yes: bool)
    requires asked { IsAskAmong decisions.old.orders decisions.old.yard ask }
    requires undecided { IsUndecided decisions.old.list ask }
    ensures { decisions.new ≡ record decisions.old { list = (ask, yes) ∷ decisions.old.list } }
{
    match ask {
        Ask::Pair(i, j) => match decisions.pair(i, j, yes) {
            Ok(()) => {}
            Err(_) => unreachable!(),
        },
        Ask::Put(o, s) => match decisions.put(o, s, yes) {
            Ok(()) => {}
            Err(_) => unreachable!(),
        },
    }
}

// Makes the decisions those of the path.
pub(crate) fn replay(decisions: &mut Decisions, path: &[(Ask, bool)])
    requires { IsOpenPath decisions.old.orders decisions.old.yard (reverse path.now) }
    ensures { decisions.new ≡ record decisions.old { list = reverse path.now } }
{
    decisions.reset();
    for &(ask, yes) in path {
        decide(decisions, ask, yes);
    }
}
