//! What the readings of certificates answer.

use cert_check::LineWhy;
use mill_model::{Front, Head, OpenTree, Steps, Version};

/// What the reading of a cut answers.
#[derive(Drop)]
pub enum CutRead {
    /// The points of a good cut, with their plans and trees.
    Head(Head),
    /// It is no good cut: the number of the first bad line, from 1, and why it is bad.
    No {
        /// The number of the line.
        line: u64,
        /// Why it is bad.
        why: LineWhy,
    },
}

/// What the reading of a whole certificate answers. Version 1 has no marks, and gives them all as plain.
#[derive(Drop)]
pub enum CertRead {
    /// A good whole certificate with a point.
    Whole(Version, Front),
    /// A good whole certificate without a point: its tree.
    NoPlan(Version, Steps),
    /// A good cut: its points, and its open tree.
    Cut(Version, Head, OpenTree),
    /// It isn't good: the number of the first bad line, from 1, and why it is bad.
    No {
        /// The number of the line.
        line: u64,
        /// Why it is bad.
        why: LineWhy,
    },
}
