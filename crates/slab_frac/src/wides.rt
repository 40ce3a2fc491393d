ghost use Rattle.std.specs.Prelude.{ℕ, ◌≡◌};
ghost use Rattle.slab_counter.specs.Counter.{next_count};

use slab_counter::raised;
use std::marker::Model;

/// How many operations had a result out of range. The count stands still at 2^64 - 1, and only this crate raises it.
#[derive(Drop)]
pub struct Wides {
    raised: u64,
}

impl Model for Wides {
    ghost Value = { ℕ };

    ghost view = { λ w. w.raised };
}

impl Wides {
    /// A count of nothing.
    pub fn new() -> Wides
        ensures { result ≡ 0 }
    {
        Wides { raised: 0 }
    }

    /// How many results left the range so far.
    pub fn count(&self) -> u64
        ensures { result ≡ self.now }
    {
        self.raised
    }

    // Counts one more result out of range.
    pub(crate) fn raise(&mut self)
        ensures { self.new ≡ next_count self.old }
    {
        self.raised = raised(self.raised);
    }
}
