use thiserror::Error;

/// The first rule that the numbers of a leaf break, in the order of the rules.
#[derive(Clone, Copy, Debug, PartialEq, Eq, Error)]
pub enum Bad {
    /// There aren't as many numbers as prices: two, one for each order and one for each surplus slab.
    #[error("there aren't as many numbers as prices")]
    Count,
    /// The price of loss, of a new slab or of a surplus slab is negative.
    #[error("a price of loss or of a slab is negative")]
    Sign,
    /// A limit is missing, and its price isn't 0.
    #[error("the price of a missing limit isn't 0")]
    Missing,
    /// The orders aren't worth more than what slabs within the limits cost.
    #[error("the orders aren't worth more than slabs within the limits cost")]
    Sum,
    /// A legal column that agrees with the path is worth more than it costs.
    #[error("a column is worth more than it costs")]
    Column,
}
