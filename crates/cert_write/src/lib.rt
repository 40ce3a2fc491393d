//! Writes certificates, and the lines of a point that a report has too.
//!
//! Read `stored` first, then `write`, `certificate`, `points`, `slabs`, `trees`, `marks` and `questions`, with `specs/Parts` beside them.
#![tactic(auto)]

mod certificate;
mod marks;
mod numbers;
mod points;
mod questions;
mod slabs;
mod stored;
mod trees;
mod write;

pub use slabs::{put_slabs, put_sums};
pub use stored::Stored;
pub use write::{write_cert, write_version};
