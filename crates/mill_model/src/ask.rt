//! Questions to a plan.

/// A question to a plan (pair branching after Ryan and Foster, 1981).
#[derive(Clone, Copy, Debug, PartialEq, Eq)]
pub enum Ask {
    /// Do these two orders lie on one slab? The first number is the smaller one.
    Pair(u16, u16),
    /// Does this order lie on this surplus slab?
    Put(u16, u16),
}
