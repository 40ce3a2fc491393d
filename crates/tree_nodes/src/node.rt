use mill_model::{Ask, Mark, Prices};

/// A node of a finished tree.
#[derive(Drop)]
pub enum Node {
    /// A leaf: its prices refute the limits under the decisions above it.
    Closed(Prices),
    /// A question, with its mark: why it is asked.
    Branched(Ask, Mark),
}
