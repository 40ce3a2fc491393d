ghost use Rattle.std.specs.Prelude.{◌≡◌, ◌+◌, ◌<◌, ◌≤◌, if◌then◌else◌};
ghost use Rattle.slab_counter.specs.Counter.{last_count};
ghost use Rattle.slab_tree.specs.Counts.{raised_by, noted_bare};

use std::marker::Model;

/// How many nodes the trees of all questions have, how many of them are bare splits, and how many nodes one tree may have.
/// Both counts stand still at 2^64 - 1.
#[derive(Drop)]
pub struct Nodes {
    limit: u64,
    opened: u64,
    bare: u64,
}

impl Model for Nodes {
    ghost use Rattle.std.specs.Prelude.{◌≤◌};
    ghost use Rattle.slab_tree.specs.Counts.{Counts};

    ghost Value = { Counts };

    ghost view = { λ n. record { limit = n.limit; opened = n.opened; bare = n.bare } };

    ghost invariant = { λ n. (n.bare ≤ n.opened) × (1 ≤ n.limit) };
}

impl Nodes {
    /// No node yet. One tree may have so many.
    pub fn new(limit: u64) -> Nodes
        requires { 1 ≤ limit }
        ensures { result ≡ record { limit = limit; opened = 0; bare = 0 } }
    {
        Nodes {
            limit,
            opened: 0,
            bare: 0,
        }
    }

    /// The most nodes that one tree may have.
    pub fn limit(&self) -> u64
        ensures value { result ≡ self.now.limit }
        ensures some { 1 ≤ self.now.limit }
    {
        self.limit
    }

    /// How many nodes were opened.
    pub fn opened(&self) -> u64
        ensures value { result ≡ self.now.opened }
        ensures bare { self.now.bare ≤ self.now.opened }
        ensures last { self.now.opened ≤ last_count }
    {
        self.opened
    }

    /// How many of them are bare splits.
    pub fn bare(&self) -> u64
        ensures value { result ≡ self.now.bare }
        ensures bare { self.now.bare ≤ self.now.opened }
    {
        self.bare
    }

    /// Counts k nodes more.
    pub fn add(&mut self, k: u64)
        ensures { self.new ≡ record self.old { opened = raised_by self.old.opened k } }
    {
        self.opened = self.opened.saturating_add(k);
    }

    /// Counts a bare split.
    pub fn mark_bare(&mut self)
        requires { self.old.bare < self.old.opened }
        ensures { self.new ≡ record self.old { bare = self.old.bare + 1 } }
    {
        self.bare += 1;
    }

    // Counts the two nodes of a split.
    pub(crate) fn add_split(&mut self, bare: bool)
        ensures { self.new ≡ record self.old { opened = raised_by self.old.opened 2; bare = raised_by self.old.bare (if bare then 1 else 0) } }
    {
        let before = self.bare();
        self.add(2);
        if bare && before < self.opened() {
            self.mark_bare();
        }
    }

    // Counts a bare split, where there is a node that isn't counted as one.
    pub(crate) fn note_bare(&mut self)
        ensures { self.new ≡ noted_bare self.old }
    {
        if self.bare < self.opened {
            self.bare += 1;
        }
    }
}
