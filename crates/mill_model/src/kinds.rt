//! Lists of slabs: what they hold, how many are new, and whether one is among them.
ghost use Rattle.std.specs.Prelude.{◌≡◌, ◌≤◌, length, sum_by, count_by};
ghost use Rattle.mill_model.specs.Mill.{most_orders};
ghost use Rattle.mill_model.specs.Columns.{size_of as size_of_kind};
ghost use Rattle.mill_model.specs.Plans.{is_new as is_new_slab};
ghost use Rattle.mill_model.specs.Judging.{is_among as is_one_of};

use crate::{Kind, Mill};

impl Mill {
    /// What so many slabs, at most 250, can hold together.
    pub fn total_size(&self, kinds: &[Kind]) -> u32
        requires { length kinds.now ≤ most_orders }
        ensures { result ≡ sum_by (size_of_kind self.now) kinds.now }
    {
        let mut sum: u32 = 0;
        for kind in kinds {
            sum += u32::from(self.size_of(*kind));
        }
        sum
    }
}

impl Kind {
    /// How many of these slabs, at most 250, are new.
    pub fn count_new(kinds: &[Kind]) -> u16
        requires { length kinds.now ≤ most_orders }
        ensures { result ≡ count_by is_new_slab kinds.now }
    {
        let mut count: u16 = 0;
        for kind in kinds {
            if kind.is_new() {
                count += 1;
            }
        }
        count
    }

    /// Whether this is a surplus slab that stands among these slabs.
    pub fn is_among(self, kinds: &[Kind]) -> bool
        ensures { result ≡ is_one_of kinds.now self }
    {
        match self {
            Kind::New(_) => false,
            Kind::Old(slab) => has_surplus(kinds, slab),
        }
    }
}

// Whether this surplus slab stands among these slabs.
fn has_surplus(kinds: &[Kind], slab: u16) -> bool
    ensures { result ≡ is_one_of kinds.now (Kind.Old slab) }
{
    for kind in kinds {
        if kind.is_surplus(slab) {
            return true;
        }
    }
    false
}
