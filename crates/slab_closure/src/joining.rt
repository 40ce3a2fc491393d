ghost use Rattle.std.specs.Prelude.{◌≡◌, ◌<◌, true};
ghost use Rattle.slab_closure.specs.declared.relation.Relation.{Relation};
ghost use Rattle.slab_closure.specs.Changes.{HasBecome, with_joined_row, with_copied_node};
ghost use Rattle.slab_closure.specs.Relations.{relation_at, IsRelations, AreDecided};

use crate::relation::joined;
use crate::square::Square;

// Writes how the group that two nodes make stands to each node into the row of the first.
fn join_row(square: &mut Square, a: usize, b: usize)
    requires a { a < square.old.count }
    requires b { b < square.old.count }
    ensures { HasBecome square.old square.new (with_joined_row a b (relation_at square.old)) }
{
    for y in 0..square.count() {
        let relation = joined(square.at(a, y), square.at(b, y));
        square.set(a, y, relation);
    }
}

// Lets a node stand to each as node a does, in whose row it stands as one of the group.
fn copy_node(square: &mut Square, a: usize, x: usize)
    requires a { a < square.old.count }
    requires x { x < square.old.count }
    requires itself { relation_at square.old a a ≡ Relation.Same }
    requires same { relation_at square.old a x ≡ Relation.Same }
    ensures { HasBecome square.old square.new (with_copied_node a x (relation_at square.old)) }
{
    for y in 0..square.count() {
        let relation = square.at(a, y);
        square.set_pair(x, y, relation);
    }
}

// Makes the groups of two nodes one.
pub(crate) fn join(square: &mut Square, a: usize, b: usize)
    requires a { a < square.old.count }
    requires b { b < square.old.count }
    requires open { relation_at square.old a b ≡ Relation.Open }
    requires relations { IsRelations square.old }
    ensures decided { AreDecided square.old square.new a b true }
    ensures relations { IsRelations square.new }
{
    join_row(square, a, b);
    for x in 0..square.count() {
        if square.in_one_group(a, x) {
            copy_node(square, a, x);
        }
    }
}
