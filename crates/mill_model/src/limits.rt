//! Upper limits of loss and count.

/// Upper limits of a plan's loss and of the number of its new slabs, each -1 to 2,500,000. `None` is a limit that is missing.
#[derive(Clone, Copy, Debug, PartialEq, Eq)]
pub struct Limits {
    /// The most loss.
    pub loss: Option<i64>,
    /// The most new slabs.
    pub count: Option<i64>,
}
