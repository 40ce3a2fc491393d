ghost use Rattle.std.specs.Prelude.{ℕ, ◌≡◌, ◌+◌, ◌<◌, ◌≤◌, ◌↔◌, IsTrue, All, length};
ghost use Rattle.mill_model.specs.Columns.{is_old};
ghost use Rattle.slab_closure.specs.Relations.{relation_at};
ghost use Rattle.slab_decide.specs.Whole.{has_node, IsRowWhole, IsSlabWhole, AreOrdersWhole, AreNodes, IsSlabBeside, AreOrdersBeside, slab_in_group, orders_in_group, IsSlabNode};

use mill_model::Kind;
use slab_closure::{Closure, Relation};

// The kind of slab, as decisions see it: one that isn't in the yard is in none of them, as a new slab is.
pub(crate) fn known_kind(yard: u16, kind: Kind) -> Kind
    ensures known { IsSlabNode yard result }
    ensures alike { (s : ℕ) → s < yard → is_old s result ≡ is_old s kind }
{
    match kind {
        Kind::Old(s) if s >= yard => Kind::New(0),
        Kind::Old(_) | Kind::New(_) => kind,
    }
}

// Whether the column's surplus slab, where it has one, isn't apart from a node.
fn is_slab_beside(relations: &Closure, kind: Kind, x: usize) -> bool
    requires x { x < relations.now.count }
    requires slab { IsSlabNode relations.now.count kind }
    ensures { IsTrue result ↔ IsSlabBeside (relation_at relations.now) kind x }
{
    match kind {
        Kind::New(_) => true,
        Kind::Old(s) => relations.at(x, s as usize) != Relation::Apart,
    }
}

// Whether none of the column's orders is apart from a node.
fn are_orders_beside(relations: &Closure, yard: u16, orders: &[u16], x: usize) -> bool
    requires limit { relations.now.count ≤ 290 }
    requires x { x < relations.now.count }
    requires orders { All (λ o. yard + o < relations.now.count) orders.now }
    ensures { IsTrue result ↔ AreOrdersBeside (relation_at relations.now) yard orders.now x }
{
    for &order in orders {
        if relations.at(x, yard as usize + order as usize) == Relation::Apart {
            return false;
        }
    }
    true
}

// Whether the column's surplus slab lies in the group of a node, as a number.
fn slab_in_group(relations: &Closure, kind: Kind, x: usize) -> usize
    requires x { x < relations.now.count }
    requires slab { IsSlabNode relations.now.count kind }
    ensures count { result ≡ slab_in_group (relation_at relations.now) kind x }
    ensures few { result ≤ 1 }
{
    match kind {
        Kind::Old(s) if relations.at(x, s as usize) == Relation::Same => 1,
        _ => 0,
    }
}

// How many of the column's orders lie in the group of a node.
fn orders_in_group(relations: &Closure, yard: u16, orders: &[u16], x: usize) -> usize
    requires limit { relations.now.count ≤ 290 }
    requires x { x < relations.now.count }
    requires orders { All (λ o. yard + o < relations.now.count) orders.now }
    ensures count { result ≡ orders_in_group (relation_at relations.now) yard orders.now x }
    ensures few { result ≤ length orders.now }
{
    let mut found = 0;
    for &order in orders {
        if relations.at(x, yard as usize + order as usize) == Relation::Same {
            found += 1;
        }
    }
    found
}

// Whether the column has the whole group of a node, and no node that is apart from it.
fn is_row_whole(relations: &Closure, yard: u16, kind: Kind, orders: &[u16], x: usize) -> bool
    requires nodes { AreNodes relations.now.count yard kind orders.now }
    requires x { x < relations.now.count }
    ensures { IsTrue result ↔ IsRowWhole relations.now.count (relation_at relations.now) (has_node yard (record { kind = kind; orders = orders.now })) x }
{
    if !is_slab_beside(relations, kind, x) {
        return false;
    }
    if !are_orders_beside(relations, yard, orders, x) {
        return false;
    }
    let found = slab_in_group(relations, kind, x) + orders_in_group(relations, yard, orders, x);
    found == usize::from(relations.group_size(x))
}

// The same of the column's surplus slab, where it has one.
pub(crate) fn is_slab_whole(relations: &Closure, yard: u16, kind: Kind, orders: &[u16]) -> bool
    requires { AreNodes relations.now.count yard kind orders.now }
    ensures { IsTrue result ↔ IsSlabWhole relations.now.count (relation_at relations.now) (has_node yard (record { kind = kind; orders = orders.now })) kind }
{
    match kind {
        Kind::New(_) => true,
        Kind::Old(s) => is_row_whole(relations, yard, kind, orders, s as usize),
    }
}

// The same of each order of the column.
pub(crate) fn are_orders_whole(relations: &Closure, yard: u16, kind: Kind, orders: &[u16]) -> bool
    requires { AreNodes relations.now.count yard kind orders.now }
    ensures { IsTrue result ↔ AreOrdersWhole relations.now.count (relation_at relations.now) (has_node yard (record { kind = kind; orders = orders.now })) yard orders.now }
{
    for &order in orders {
        if !is_row_whole(
            relations,
            yard,
            kind,
            orders,
            yard as usize + order as usize,
        ) {
            return false;
        }
    }
    true
}
