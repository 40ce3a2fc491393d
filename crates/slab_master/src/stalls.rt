ghost use Rattle.std.specs.Prelude.{ℕ, ◌≡◌};
ghost use Rattle.slab_counter.specs.Counter.{next_count};
ghost use Rattle.slab_master.specs.StallCounts.{StallCounts};

use slab_counter::raised;
use std::marker::Model;

/// How many solves gave up, and how many pivots were made. Each count stands still at 2^64 - 1, and only this crate
/// raises them. Beside what contracts see, it counts the solves that were begun.
#[derive(Drop)]
pub struct Stalls {
    stalls: u64,
    pivots: u64,
    solves: u64,
}

impl Model for Stalls {
    ghost use Rattle.slab_master.specs.StallCounts.{StallCounts};

    ghost Value = { StallCounts };

    ghost view = { λ s. record { stalls = s.stalls; pivots = s.pivots } };
}

impl Stalls {
    /// Counts of nothing.
    pub fn new() -> Stalls
        ensures { result ≡ record { stalls = 0; pivots = 0 } }
    {
        Stalls {
            stalls: 0,
            pivots: 0,
            solves: 0,
        }
    }

    /// How many solves ended as `Stalled`.
    pub fn count(&self) -> u64
        ensures { result ≡ self.now.stalls }
    {
        self.stalls
    }

    /// How many pivots were made.
    pub fn pivots(&self) -> u64
        ensures { result ≡ self.now.pivots }
    {
        self.pivots
    }

    /// How many solves were begun.
    pub fn solves(&self) -> u64 {
        self.solves
    }

    // Counts one more solve.
    pub(crate) fn add_solve(&mut self)
        ensures { self.new ≡ self.old }
    {
        self.solves = raised(self.solves);
    }

    // Counts one more pivot.
    pub(crate) fn add_pivot(&mut self)
        ensures { self.new ≡ record self.old { pivots = next_count self.old.pivots } }
    {
        self.pivots = raised(self.pivots);
    }

    // Counts one more solve that gave up.
    pub(crate) fn add_stall(&mut self)
        ensures { self.new ≡ record self.old { stalls = next_count self.old.stalls } }
    {
        self.stalls = raised(self.stalls);
    }
}
