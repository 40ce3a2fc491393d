//! Why a tree asks a question.
use crate::Shown;

/// Why a finished tree asks a question: what is known of prices for the tree's limits and the decisions above it.
#[derive(Drop)]
pub enum Mark {
    /// A cover shows that no prices refute there.
    Spread(Shown),
    /// The search found neither a cover nor refuting prices in its range.
    Bare,
    /// Nothing is claimed.
    Plain,
}
