//! Worked rows: what one question comes to on mills that a reader can answer by hand.
//!
//! Read `asked` (a question, run to its end and tightened) and `leaves` (its tree's leaves, tested as the checker tests
//! them); the rows are the tests. What a question promises is proved of `slab_tree`'s calls; here nothing is.
#![tactic(auto)]

pub mod asked;
pub mod leaves;
#[cfg(test)]
mod rows;
