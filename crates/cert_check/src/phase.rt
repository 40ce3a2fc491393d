//! What can stand next.

/// What can stand next, where the reading of a certificate stands. In a tree, whether it is the one after `done`.
#[derive(Clone, Copy, Debug, PartialEq, Eq)]
pub enum Phase {
    /// The header.
    Begin,
    /// A point, or how the certificate ends.
    Between,
    /// A slab, or the first line of a tree.
    Plan,
    /// A line that begins a tree.
    Tree(bool),
    /// A question, since its mark was read.
    Question(bool),
    /// A share, or a question after at least one.
    Spread(bool),
    /// A line of the open tree.
    Open,
    /// Nothing after a whole certificate.
    Proved,
    /// Nothing after a cut.
    Unfinished,
}
