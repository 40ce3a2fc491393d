ghost use Rattle.std.specs.Prelude.{◌≡◌, ◌+◌, ◌<◌, ◌≤◌, IfOk};
ghost use Rattle.slab_closure.specs.Cells.{is_same};
ghost use Rattle.slab_closure.specs.Changes.{HasBecome, with_cell, with_pair, open_table, with_slab_apart, with_slabs_apart, with_itself};
ghost use Rattle.slab_closure.specs.Relations.{relation_at, AreUndecided, IsRelations};

use crate::relation::Relation;
use std::alloc::{AllocError, Global};
use std::marker::Model;

// How each node stands to each other, row by row: surplus slabs, which come first, and orders.
#[derive(Drop)]
pub(crate) struct Square {
    count: usize,
    slabs: usize,
    cells: Vec<Relation>,
}

impl Model for Square {
    ghost use Rattle.slab_closure.specs.Relations.{Relations, IsSquare};

    ghost Value = { Relations };

    ghost view = { λ s. record { count = s.count; slabs = s.slabs; cells = s.cells.items } };

    ghost invariant = { λ s. IsSquare (record { count = s.count; slabs = s.slabs; cells = s.cells.items }) };
}

impl Square {
    // Nodes under no decision. The only error is want of memory.
    pub(crate) fn new(alloc: Global, slabs: usize, orders: usize) -> Result<Square, AllocError>
        requires { slabs + orders ≤ 290 }
        ensures slabs { IfOk result (λ made. made.slabs ≡ slabs) }
        ensures count { IfOk result (λ made. made.count ≡ slabs + orders) }
        ensures undecided { IfOk result AreUndecided }
        ensures relations { IfOk result IsRelations }
    {
        let count = slabs + orders;
        let cells = vec![in alloc; Relation::Open; count * count]?;
        let mut square = Square {
            count,
            slabs,
            cells,
        };
        square.reset();
        Ok(square)
    }

    // Takes all decisions back.
    pub(crate) fn reset(&mut self)
        ensures slabs { self.new.slabs ≡ self.old.slabs }
        ensures count { self.new.count ≡ self.old.count }
        ensures undecided { AreUndecided self.new }
        ensures relations { IsRelations self.new }
    {
        self.open_all();
        self.part_slabs();
        self.join_each();
        // The proof needs that the cells are a square.
        let _ = &self.count;
    }

    pub(crate) fn count(&self) -> usize
        ensures { result ≡ self.now.count }
    {
        self.count
    }

    pub(crate) fn at(&self, x: usize, y: usize) -> Relation
        requires x { x < self.now.count }
        requires y { y < self.now.count }
        ensures { result ≡ relation_at self.now x y }
    {
        self.cells[x * self.count + y]
    }

    // Whether two nodes lie in one group.
    pub(crate) fn in_one_group(&self, x: usize, y: usize) -> bool
        requires x { x < self.now.count }
        requires y { y < self.now.count }
        ensures { result ≡ is_same (relation_at self.now x y) }
    {
        self.at(x, y) == Relation::Same
    }

    pub(crate) fn set(&mut self, x: usize, y: usize, relation: Relation)
        requires x { x < self.old.count }
        requires y { y < self.old.count }
        ensures { HasBecome self.old self.new (with_cell x y relation (relation_at self.old)) }
    {
        let place = x * self.count + y;
        self.cells[place] = relation;
    }

    // Sets how two nodes stand to each other, in the row of each.
    pub(crate) fn set_pair(&mut self, x: usize, y: usize, relation: Relation)
        requires x { x < self.old.count }
        requires y { y < self.old.count }
        ensures { HasBecome self.old self.new (with_pair x y relation (relation_at self.old)) }
    {
        self.set(x, y, relation);
        self.set(y, x, relation);
    }

    // Leaves every relation open.
    fn open_all(&mut self)
        ensures { HasBecome self.old self.new open_table }
    {
        self.cells.fill(Relation::Open);
    }

    // Tells a surplus slab apart from each, itself too.
    fn part_slab(&mut self, s: usize)
        requires { s < self.old.slabs }
        ensures { HasBecome self.old self.new (with_slab_apart s self.old.slabs (relation_at self.old)) }
    {
        for t in 0..self.slabs {
            self.set(s, t, Relation::Apart);
        }
    }

    // Tells the surplus slabs apart.
    fn part_slabs(&mut self)
        ensures { HasBecome self.old self.new (with_slabs_apart self.old.slabs (relation_at self.old)) }
    {
        for s in 0..self.slabs {
            self.part_slab(s);
        }
    }

    // Puts each node into its own group.
    fn join_each(&mut self)
        ensures { HasBecome self.old self.new (with_itself (relation_at self.old)) }
    {
        for x in 0..self.count {
            self.set(x, x, Relation::Same);
        }
    }
}
