//! The versions of certificates.

/// A version of the certificate's text.
#[derive(Clone, Copy, Debug, PartialEq, Eq)]
pub enum Version {
    /// Trees without marks, which stand for marks that are all plain.
    One,
    /// A mark before each question of a finished tree.
    Two,
}
