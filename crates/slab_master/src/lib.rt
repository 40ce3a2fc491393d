//! The restricted master: multipliers of the given columns that meet every row, or prices that show that there are none; and
//! the multipliers of least cost. A solve tests its answer in whole numbers against the given rows and columns before it
//! gives it, so that nothing rests on the search for a basis.
//!
//! The modules read in this order: `given`, `frac_list`, `outcome`, `stalls`, what a master is given and answers; `problem`,
//! what a solve reads; `likely`, the columns that enter first; `check` and `check_least`, the tests of answers; `search`, the search for a basis, which claims
//! nothing; `offers`, answers that are tested; `turns`, a whole solve; `master`, the public calls.
#![tactic(auto)]

mod check;
mod check_least;
mod frac_list;
mod given;
mod likely;
mod master;
mod offers;
mod outcome;
mod problem;
mod search;
mod stalls;
mod turns;

pub use frac_list::FracList;
pub use given::Sense;
pub use master::Master;
pub use outcome::{Least, Outcome};
pub use stalls::Stalls;
