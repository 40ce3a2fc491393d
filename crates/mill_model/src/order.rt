//! Orders.

/// An order: what it weighs, and its colour, which is its route through the mill.
#[derive(Clone, Copy, Debug, PartialEq, Eq)]
pub struct Order {
    /// 1 to 10,000.
    pub weight: u16,
    /// 1 to the mill's number of colours.
    pub colour: u16,
}
