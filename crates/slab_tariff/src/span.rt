//! The prices at which a point is the cheapest.

use mill_model::Sums;

/// The highest price of a unit of loss, and of a new slab.
pub const MOST_UNIT_PRICE: u32 = 1_000_000;

/// The prices at which a point is the cheapest, by the price of a new slab over that of a unit of loss. A ratio is in lowest
/// terms, above before below; (1, 0) is no upper end.
#[derive(Clone, Copy, Debug, PartialEq, Eq)]
pub struct Span {
    /// The point.
    pub sums: Sums,
    /// The least ratio.
    pub from: (u32, u32),
    /// The greatest ratio.
    pub to: (u32, u32),
}
