//! What a check answers.

use crate::{LineWhy, Points};

/// What a check of a certificate answers.
#[derive(Drop)]
pub enum Verdict {
    /// It is good and whole, and has these points, at least one: they are the Pareto front.
    Front(Points),
    /// It is good and whole and has no point: no plan is legal.
    NoPlan,
    /// It is a good cut with these points.
    Cut(Points),
    /// It isn't good: the number of the first bad line, from 1, and why it is bad.
    No {
        /// The number of the line.
        line: u64,
        /// Why it is bad.
        why: LineWhy,
    },
}
