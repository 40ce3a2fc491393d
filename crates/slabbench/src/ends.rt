//! How calls ended.

use slab_counter::raised;

/// How often calls ended as the file tells, and otherwise.
#[derive(Clone, Copy, Debug)]
pub struct Ends {
    pub same: u64,
    pub other: u64,
}

impl Ends {
    /// No call so far.
    pub fn new() -> Ends {
        Ends { same: 0, other: 0 }
    }

    /// One call more.
    pub fn note(&mut self, is_same: bool) {
        if is_same {
            self.same = raised(self.same);
        } else {
            self.other = raised(self.other);
        }
    }
}
