ghost use Rattle.std.specs.Prelude.{◌≡◌, ◌<◌, ◌≤◌, ◌++◌, ◌∷◌, [], ◌↔◌, IsTrue, Contains, vec_len, vec_capacity};
ghost use Rattle.slab_decide.specs.Nodes.{first_node, second_node, relation_of};

use mill_model::Ask;
use slab_closure::Relation;

// The two nodes that an ask is about: the surplus slabs come first, then the orders.
pub(crate) fn nodes(yard: u16, ask: Ask) -> (usize, usize)
    ensures first { result.0 ≡ first_node yard ask }
    ensures second { result.1 ≡ second_node yard ask }
{
    let yard = yard as usize;
    match ask {
        Ask::Pair(i, j) => (yard + i as usize, yard + j as usize),
        Ask::Put(o, s) => (yard + o as usize, s as usize),
    }
}

// The relation that an answer demands.
pub(crate) fn relation_of(yes: bool) -> Relation
    ensures { result ≡ relation_of yes }
{
    if yes { Relation::Same } else { Relation::Apart }
}

fn is_decision(decision: (Ask, bool), ask: Ask, yes: bool) -> bool
    ensures { IsTrue result ↔ (decision ≡ (ask, yes)) }
{
    let (asked, answered) = decision;
    if asked != ask {
        return false;
    }
    answered == yes
}

// Whether the decision stands in the list.
pub(crate) fn stands(list: &[(Ask, bool)], ask: Ask, yes: bool) -> bool
    ensures { IsTrue result ↔ Contains list.now (ask, yes) }
{
    for &decision in list {
        if is_decision(decision, ask, yes) {
            return true;
        }
    }
    false
}

// Adds a decision within the room that the list has.
pub(crate) fn add(list: &mut Vec<(Ask, bool)>, ask: Ask, yes: bool)
    requires { vec_len list.old < vec_capacity list.old }
    ensures items { list.new.items ≡ list.old.items ++ (ask, yes) ∷ [] }
    ensures capacity { vec_capacity list.old ≤ vec_capacity list.new }
{
    if list.push((ask, yes)).is_err() {
        unreachable!();
    }
}
