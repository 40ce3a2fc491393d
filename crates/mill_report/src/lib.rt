//! What is said of a front: the report of `solve` and `resume`, and the summary of `make`.
//!
//! Read `word` first, then `report` and `summary`, with `specs/Reports` beside them, and last `ending`, which both have.
#![tactic(auto)]

mod ending;
mod report;
mod summary;
mod word;

pub use report::say_report;
pub use summary::say_summary;
pub use word::Word;
