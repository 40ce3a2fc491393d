//! Branching decisions about orders and surplus slabs, with all that follows from them.
//!
//! Read `decisions` first (what others call), then `clash` (what can't follow), `asks` and `open_asks` (questions without an
//! answer) and `column` (which columns agree).
#![tactic(auto)]

mod asks;
mod clash;
mod column;
mod decisions;
mod open_asks;

pub use clash::Clash;
pub use decisions::Decisions;
