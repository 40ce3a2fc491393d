ghost use Rattle.std.specs.Prelude.{◌≡◌, ◌≢◌, ◌<◌, false};
ghost use Rattle.slab_closure.specs.declared.relation.Relation.{Relation};
ghost use Rattle.slab_closure.specs.Changes.{HasBecome, with_parted_node};
ghost use Rattle.slab_closure.specs.Relations.{relation_at, IsRelations, AreDecided};

use crate::relation::Relation;
use crate::square::Square;

// Tells a node apart from each of the group of node b, in which it doesn't lie.
fn part_node(square: &mut Square, b: usize, x: usize)
    requires b { b < square.old.count }
    requires x { x < square.old.count }
    requires itself { relation_at square.old b b ≡ Relation.Same }
    requires other { relation_at square.old b x ≢ Relation.Same }
    ensures { HasBecome square.old square.new (with_parted_node b x (relation_at square.old)) }
{
    for y in 0..square.count() {
        if square.in_one_group(b, y) {
            square.set_pair(x, y, Relation::Apart);
        }
    }
}

// Tells the groups of two nodes apart.
pub(crate) fn part(square: &mut Square, a: usize, b: usize)
    requires a { a < square.old.count }
    requires b { b < square.old.count }
    requires open { relation_at square.old a b ≡ Relation.Open }
    requires relations { IsRelations square.old }
    ensures decided { AreDecided square.old square.new a b false }
    ensures relations { IsRelations square.new }
{
    for x in 0..square.count() {
        if square.in_one_group(a, x) {
            part_node(square, b, x);
        }
    }
}
