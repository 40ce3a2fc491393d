//! The slabs of groups: a group's surplus slab, or else a new slab of the least size that holds it.
ghost use Rattle.std.specs.Prelude.{◌≡◌, ◌≤◌, IfOk, length};
ghost use Rattle.mill_model.specs.declared.kind.Kind.{Kind};
ghost use Rattle.pricing_laws.specs.Groupings.{AreBefore, AreWeights};
ghost use Rattle.slab_node.specs.Grouped.{AreGrouped, IsNewFor, IsKindFor, AreKinds};

use loss_table::LossTable;
use mill_model::{Kind, Mill};
use slab_relax::Node;
use std::alloc::{AllocError, Global};

// What each group weighs.
fn weigh(mill: &Mill, heads: &[u16], weights: &mut [u32])
    requires orders { length heads.now ≡ length mill.now.orders }
    requires before { AreBefore heads.now }
    requires few { length heads.now ≤ 250 }
    requires room { length weights.old ≡ length heads.now }
    ensures { AreWeights mill.now heads.now weights.new }
{
    weights.fill(0);
    for (order, head) in heads.iter().enumerate() {
        weights[usize::from(*head)] += u32::from(mill.orders()[order].weight);
    }
}

// What each group weighs, in a list of its own.
pub(crate) fn weights_of(alloc: Global, mill: &Mill, heads: &[u16]) -> Result<Vec<u32>, AllocError>
    requires orders { length heads.now ≡ length mill.now.orders }
    requires before { AreBefore heads.now }
    ensures { IfOk result (λ weights. AreWeights mill.now heads.now weights.items) }
{
    let mut weights = vec![in alloc; 0; mill.orders().len()]?;
    weigh(mill, heads, &mut weights);
    Ok(weights)
}

// The least listed size that holds a load, or some listed size where none does.
fn size_for(mill: &Mill, table: &LossTable, load: u32) -> u16
    requires { table.now ≡ mill.now.sizes }
    ensures { IsNewFor mill.now load (Kind.New result) }
{
    match table.size_for(load) {
        Some(size) => size,
        None => mill.sizes()[0],
    }
}

// The surplus slab, or else a new one for the load.
fn kind_for(mill: &Mill, table: &LossTable, slab: Option<u16>, load: u32) -> Kind
    requires { table.now ≡ mill.now.sizes }
    ensures { IsKindFor mill.now slab load result }
{
    match slab {
        Some(slab) => Kind::Old(slab),
        None => Kind::New(size_for(mill, table, load)),
    }
}

// The slab of each group.
pub(crate) fn kinds_of(
    alloc: Global,
    node: &Node<'_>,
    heads: &[u16],
    slabs: &[Option<u16>],
) -> Result<Vec<Kind>, AllocError>
    requires { AreGrouped node.now.mill.now heads.now slabs.now }
    ensures { IfOk result (λ kinds. AreKinds node.now.mill.now heads.now slabs.now kinds.items) }
{
    let count = node.mill.orders().len();
    let weights = weights_of(alloc, node.mill, heads)?;
    let mut kinds = Vec::with_capacity(alloc, count)?;
    for (head, slab) in slabs.iter().enumerate() {
        kinds.push(kind_for(node.mill, node.table, *slab, weights[head]))?;
    }
    Ok(kinds)
}
