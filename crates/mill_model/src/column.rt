//! Columns as they are lent.
use crate::Kind;

/// A column as it is lent: a slab, and the orders that lie on it.
#[derive(Clone, Copy)]
pub struct Column<'a> {
    /// The slab.
    pub kind: Kind,
    /// The orders, rising.
    pub orders: &'a [u16],
}
