//! The checker of certificates: it says yes to exactly the good ones, and a yes implies the front.
//!
//! Read `line_why`, `points` and `verdict` first (what is said), then `tree`, `staircase` and `spread` (the lines of a tree, of
//! points and of a spread), `phase` and `machine` (one line after another), `wanted`, `ending`, `failure` and `reader` (bytes in
//! pieces, line by line), and `checker`.
#![tactic(auto)]

mod checker;
mod ending;
mod failure;
mod line_why;
mod machine;
mod phase;
mod points;
mod reader;
mod spread;
mod staircase;
mod tree;
mod verdict;
mod wanted;

pub use checker::{Checker, check};
pub use ending::Ending;
pub use failure::Failure;
pub use line_why::{LineWhy, OrderList};
pub use points::Points;
pub use reader::Reader;
pub use verdict::Verdict;
pub use wanted::Wanted;
