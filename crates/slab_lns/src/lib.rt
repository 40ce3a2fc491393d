//! Starts by large neighbourhoods: rounds that release the orders of two slabs and place them anew, after the plan of
//! another starter.
//!
//! Read `shelf` first (lists that are used again), `release` (what is kept, and what is placed
//! anew), `ways` and `placing` (where an order goes), `sizes` (what a plan costs), `search` (a round), `lns`, and `laws`.
#![tactic(auto)]

mod laws;
mod lns;
mod placing;
mod release;
mod search;
mod shelf;
mod sizes;
mod ways;

pub use laws::rounds_make_no_worse;
pub use lns::Lns;
