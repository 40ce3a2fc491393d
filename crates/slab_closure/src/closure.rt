ghost use Rattle.std.specs.Prelude.{◌≡◌, ◌+◌, ◌<◌, ◌≤◌, IfOk};
ghost use Rattle.slab_closure.specs.Relations.{relation_at, AreDecided, IsRelations, AreUndecided};
ghost use Rattle.slab_closure.specs.Sizes.{group_size};
ghost use Rattle.slab_closure.specs.declared.relation.Relation.{Relation};

use crate::joining::join;
use crate::parting::part;
use crate::relation::Relation;
use crate::sizes::write_size;
use crate::square::Square;
use std::alloc::{AllocError, Global};
use std::marker::Model;

/// The relations of nodes: surplus slabs, which come first, and orders. They are seen as a square of cells.
#[derive(Drop)]
pub struct Closure {
    square: Square,
    sizes: Vec<u16>,
}

impl Model for Closure {
    ghost use Rattle.std.specs.Prelude.{◌≡◌, vec_len};
    ghost use Rattle.slab_closure.specs.Relations.{Relations, IsRelations};
    ghost use Rattle.slab_closure.specs.Sizes.{AreSizes};

    ghost Value = { Relations };

    ghost view = { λ c. c.square };

    ghost invariant = { λ c. IsRelations c.square × (vec_len c.sizes ≡ c.square.count) × AreSizes c.square c.sizes.items };
}

impl Closure {
    /// Nodes of which each is a group, with the surplus slabs apart. The only error is want of memory.
    pub fn new(alloc: Global, slabs: usize, orders: usize) -> Result<Closure, AllocError>
        requires { slabs + orders ≤ 290 }
        ensures slabs { IfOk result (λ made. made.slabs ≡ slabs) }
        ensures count { IfOk result (λ made. made.count ≡ slabs + orders) }
        ensures undecided { IfOk result AreUndecided }
        ensures relations { IfOk result IsRelations }
    {
        let sizes = vec![in alloc; 1; slabs + orders]?;
        let square = Square::new(alloc, slabs, orders)?;
        Ok(Closure { square, sizes })
    }

    /// Takes all decisions back. It takes no memory.
    pub fn reset(&mut self)
        ensures slabs { self.new.slabs ≡ self.old.slabs }
        ensures count { self.new.count ≡ self.old.count }
        ensures undecided { AreUndecided self.new }
        ensures relations { IsRelations self.new }
    {
        self.square.reset();
        self.sizes.fill(1);
    }

    /// How two nodes stand to each other.
    pub fn at(&self, x: usize, y: usize) -> Relation
        requires x { x < self.now.count }
        requires y { y < self.now.count }
        ensures value { result ≡ relation_at self.now x y }
        ensures relations { IsRelations self.now }
    {
        self.square.at(x, y)
    }

    /// How many nodes lie in the group of a node, itself among them.
    pub fn group_size(&self, x: usize) -> u16
        requires { x < self.now.count }
        ensures { result ≡ group_size self.now x }
    {
        self.sizes[x]
    }

    /// Decides of two nodes that are open whether their groups are one. It takes no memory.
    pub fn decide(&mut self, a: usize, b: usize, yes: bool)
        requires a { a < self.old.count }
        requires b { b < self.old.count }
        requires open { relation_at self.old a b ≡ Relation.Open }
        ensures decided { AreDecided self.old self.new a b yes }
        ensures relations { IsRelations self.new }
    {
        if yes {
            join(&mut self.square, a, b);
            let size = self.sizes[a] + self.sizes[b];
            write_size(&mut self.sizes, &self.square, a, size);
        } else {
            part(&mut self.square, a, b);
        }
    }
}
