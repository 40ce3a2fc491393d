use mill_model::{Ask, Mark, Prices};

/// A decided node of a search tree.
#[derive(Drop)]
pub enum Node {
    /// A closed leaf: its prices refute the limits under the decisions above it.
    Closed(Prices),
    /// A question, with its mark.
    Branched(Ask, Mark),
}
