//! How a text has ended.

use crate::Points;

/// How a text that keeps all rules has ended, and the points of its certificate.
#[derive(Drop)]
pub enum Ending {
    /// A whole certificate.
    Proved(Points),
    /// A cut.
    Unfinished(Points),
}
