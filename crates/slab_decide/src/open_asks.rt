ghost use Rattle.std.specs.Prelude.{ℕ, ◌≡◌, ◌+◌, ◌<◌, ◌≤◌, IfSome, IfNone};
ghost use Rattle.slab_closure.specs.Relations.{Relations, relation_at};
ghost use Rattle.slab_decide.specs.OpenAsks.{ArePairsClosed, ArePutsClosed, IsFirstPair, IsFirstPut, IsFirstPairOf, IsFirstPutOf, ArePairsClosedFor, ArePutsClosedFor};

use mill_model::Ask;
use slab_closure::{Closure, Relation};

// The first order j above i with which i is open.
fn first_open_partner(relations: &Closure, orders: u16, yard: u16, i: u16) -> Option<u16>
    requires count { relations.now.count ≡ yard + orders }
    requires order { i < orders }
    ensures some { IfSome result (IsFirstPairOf relations.now orders yard i) }
    ensures none { IfNone result (ArePairsClosedFor relations.now yard i orders) }
{
    let node = yard as usize + i as usize;
    for j in i + 1..orders {
        if relations.at(node, yard as usize + j as usize) == Relation::Open {
            return Some(j);
        }
    }
    None
}

// The first open pair of orders.
pub(crate) fn first_open_pair(relations: &Closure, orders: u16, yard: u16) -> Option<Ask>
    requires { relations.now.count ≡ yard + orders }
    ensures some { IfSome result (IsFirstPair relations.now orders yard) }
    ensures none { IfNone result (ArePairsClosed relations.now yard orders orders) }
{
    for i in 0..orders {
        if let Some(j) = first_open_partner(relations, orders, yard, i) {
            return Some(Ask::Pair(i, j));
        }
    }
    None
}

// The first surplus slab with which an order is open.
fn first_open_slab(relations: &Closure, orders: u16, yard: u16, o: u16) -> Option<u16>
    requires count { relations.now.count ≡ yard + orders }
    requires order { o < orders }
    ensures some { IfSome result (IsFirstPutOf relations.now yard o) }
    ensures none { IfNone result (ArePutsClosedFor relations.now yard o yard) }
{
    let node = yard as usize + o as usize;
    for s in 0..yard {
        if relations.at(node, s as usize) == Relation::Open {
            return Some(s);
        }
    }
    None
}

// The first open put of an order on a surplus slab.
pub(crate) fn first_open_put(relations: &Closure, orders: u16, yard: u16) -> Option<Ask>
    requires { relations.now.count ≡ yard + orders }
    ensures some { IfSome result (IsFirstPut relations.now orders yard) }
    ensures none { IfNone result (ArePutsClosed relations.now yard orders) }
{
    for o in 0..orders {
        if let Some(s) = first_open_slab(relations, orders, yard, o) {
            return Some(Ask::Put(o, s));
        }
    }
    None
}
