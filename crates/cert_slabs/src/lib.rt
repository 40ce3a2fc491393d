//! The slabs of a certificate's lines, tested by their rules: those of a plan, and the shares of a spread.
//!
//! Read `roster` first (the orders of a line), then `slab` (what the mill allows on one slab), `draft` (a plan while its slabs
//! are read) and `tally` (a spread while its shares are read).
#![tactic(auto)]

mod colours;
mod draft;
mod roster;
mod slab;
mod tally;

pub use draft::Draft;
pub use roster::Roster;
pub use slab::{listed_size, named_slab, test_slab};
pub use tally::{Tally, read_new_share, read_old_share};
