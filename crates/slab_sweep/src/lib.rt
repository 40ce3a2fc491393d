//! The Pareto front of a mill, by one question after another over count limits that fall.
//!
//! Read `swept` (what a sweep answers), `question` (one question, from its tree to its steps), `points` (where its plan goes),
//! then `sweeping`.
#![tactic(auto)]

mod points;
mod question;
mod sweeping;
mod swept;

pub use sweeping::sweep;
pub use swept::Swept;
