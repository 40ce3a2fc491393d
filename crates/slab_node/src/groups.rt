//! The groups of settled decisions.
ghost use Rattle.std.specs.Prelude.{◌≡◌, ◌<◌, IfOk, length};
ghost use Rattle.mill_model.specs.Decisions.{IsAsk};
ghost use Rattle.mill_model.specs.Assignments.{Follows, AreSettled};
ghost use Rattle.slab_node.specs.Settled.{IsFirst, IsSlabOf, AreFirsts, AreSlabs};

use mill_model::Ask;
use slab_relax::Node;
use std::alloc::{AllocError, Global};

// What settled decisions answer.
fn answer(node: &Node<'_>, ask: Ask) -> bool
    requires asked { IsAsk node.now.mill.now ask }
    requires settled { AreSettled node.now.mill.now node.now.decisions.now.list }
    ensures { Follows node.now.decisions.now.list ask result }
{
    match node.decisions.follows(ask) {
        Some(answer) => answer,
        None => unreachable!(),
    }
}

// The first order of an order's group.
fn first_of(node: &Node<'_>, order: u16) -> u16
    requires order { order < length node.now.mill.now.orders }
    requires settled { AreSettled node.now.mill.now node.now.decisions.now.list }
    ensures { IsFirst node.now.decisions.now.list order result }
{
    for earlier in 0..order {
        if answer(node, Ask::Pair(earlier, order)) {
            return earlier;
        }
    }
    order
}

// The surplus slab of an order's group, if it has one.
fn slab_of(node: &Node<'_>, order: u16) -> Option<u16>
    requires order { order < length node.now.mill.now.orders }
    requires settled { AreSettled node.now.mill.now node.now.decisions.now.list }
    ensures { IsSlabOf node.now.decisions.now.list (length node.now.mill.now.yard) order result }
{
    let count = node.mill.yard().len();
    for slab in 0..count as u16 {
        if answer(node, Ask::Put(order, slab)) {
            return Some(slab);
        }
    }
    None
}

// The first order of each order's group.
pub(crate) fn firsts_of(alloc: Global, node: &Node<'_>) -> Result<Vec<u16>, AllocError>
    requires { AreSettled node.now.mill.now node.now.decisions.now.list }
    ensures size { IfOk result (λ heads. length heads.items ≡ length node.now.mill.now.orders) }
    ensures firsts { IfOk result (λ heads. AreFirsts node.now.decisions.now.list heads.items) }
{
    let count = node.mill.orders().len();
    let mut heads = Vec::with_capacity(alloc, count)?;
    for order in 0..count {
        heads.push(first_of(node, order as u16))?;
    }
    Ok(heads)
}

// The surplus slab of each order's group, if it has one.
pub(crate) fn slabs_of(alloc: Global, node: &Node<'_>) -> Result<Vec<Option<u16>>, AllocError>
    requires { AreSettled node.now.mill.now node.now.decisions.now.list }
    ensures size { IfOk result (λ slabs. length slabs.items ≡ length node.now.mill.now.orders) }
    ensures slabs { IfOk result (λ slabs. AreSlabs node.now.decisions.now.list
        (length node.now.mill.now.yard) slabs.items) }
{
    let count = node.mill.orders().len();
    let mut slabs = Vec::with_capacity(alloc, count)?;
    for order in 0..count {
        slabs.push(slab_of(node, order as u16))?;
    }
    Ok(slabs)
}
