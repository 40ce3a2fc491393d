//! A shorter certificate, without the solver: a node under which some leaf's prices already refute at the node becomes that leaf.
//!
//! Read `specs/Trimming` first, then `walk` (one node after another), `tree` (a whole tree), `points` and `whole` (a certificate),
//! and `laws` (what trimming keeps).
#![tactic(auto)]

mod laws;
mod points;
mod tree;
mod trimmed;
mod walk;
mod whole;

pub use laws::{
    one_trimmed_tree, shown_covers_stay, trimmed_certificates_are_good, trimmed_trees_are_good,
    trimmed_trees_are_tight,
};
pub use trimmed::Trimmed;
pub use whole::{trim, trim_read};
