//! The script of a session: its lines, and the first that can't stand.
//!
//! A line is words, parted by single spaces and ended by a line feed. Read `line` first (what a
//! line asks for, and why one can't stand), then `lines` (one after another) and `reading` (one
//! line: `form` has its rules, `numbers` and `parts` its words).
#![tactic(auto)]

mod error;
mod form;
mod line;
mod lines;
mod numbers;
mod parts;
mod reading;

pub use error::LineError;
pub use line::{Line, SizeList, Why};
pub use lines::Lines;
pub use reading::read_line;
