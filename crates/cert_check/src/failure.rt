//! The first bad line.

use crate::LineWhy;

/// The first bad line: its number, and why it is bad.
#[derive(Drop)]
pub struct Failure {
    /// The number of the line, from 1.
    pub line: u64,
    /// Why it is bad.
    pub why: LineWhy,
}
