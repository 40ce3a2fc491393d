ghost use Rattle.std.specs.Prelude.{◌≡◌};
ghost use Rattle.slab_counter.specs.Counter.{next_count};

use slab_counter::raised;
use std::marker::Model;

/// How many columns were refused by full pools. The count stands still at 2^64 - 1, and only this crate raises it.
#[derive(Drop)]
pub struct Fulls {
    raised: u64,
}

impl Model for Fulls {
    ghost use Rattle.std.specs.Prelude.{ℕ};

    ghost Value = { ℕ };

    ghost view = { λ f. f.raised };
}

impl Fulls {
    /// A count of nothing.
    pub fn new() -> Fulls
        ensures { result ≡ 0 }
    {
        Fulls { raised: 0 }
    }

    /// How many columns were refused so far.
    #[inline]
    pub fn count(&self) -> u64
        ensures { result ≡ self.now }
    {
        self.raised
    }

    // One more was refused.
    pub(crate) fn raise(&mut self)
        ensures { self.new ≡ next_count self.old }
    {
        self.raised = raised(self.raised);
    }
}
