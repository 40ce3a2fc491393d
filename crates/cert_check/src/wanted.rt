//! Which certificates a reader takes as good.

/// Which certificates a reader takes as good.
#[derive(Clone, Copy, Debug, PartialEq, Eq)]
pub enum Wanted {
    /// Whole ones and cuts.
    All,
    /// Cuts alone: a line `done` can't stand.
    Cuts,
}
