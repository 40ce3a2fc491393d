ghost use Rattle.std.specs.Prelude.{◌≡◌};

use slab_columns::Fulls;
use slab_frac::Wides;
use slab_master::Stalls;

/// Three counters of what a turn can fail by. Each stands still at 2^64 - 1.
#[derive(Drop)]
pub struct Tally {
    /// Fractions that left their range.
    pub wides: Wides,
    /// Solves that gave up.
    pub stalls: Stalls,
    /// Columns that a full pool refused.
    pub fulls: Fulls,
}

impl Tally {
    /// Three counts of nothing.
    pub fn new() -> Tally
        ensures { result
            ≡ record { wides = 0; stalls = record { stalls = 0; pivots = 0 }; fulls = 0 } }
    {
        Tally {
            wides: Wides::new(),
            stalls: Stalls::new(),
            fulls: Fulls::new(),
        }
    }
}
