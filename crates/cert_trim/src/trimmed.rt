//! What trimming a certificate answers.
use cert_check::LineWhy;
use mill_model::{Front, Head, OpenTree, Steps, Version};

/// What trimming a certificate answers.
#[derive(Drop)]
pub enum Trimmed {
    /// The trimmed certificate of a good whole one with a point.
    Whole(Version, Front),
    /// That of a good whole one without a point: its tree.
    NoPlan(Version, Steps),
    /// That of a good cut, with its open tree as it was.
    Cut(Version, Head, OpenTree),
    /// The bytes spell no good certificate: the number of the first bad line, from 1, and why it is bad.
    No {
        /// The number of the line.
        line: u64,
        /// Why it is bad.
        why: LineWhy,
    },
}
