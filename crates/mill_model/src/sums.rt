//! What a plan costs.

/// What a plan costs.
#[derive(Clone, Copy, Debug, PartialEq, Eq)]
pub struct Sums {
    /// The weight of the steel that no order takes.
    pub loss: u32,
    /// The number of new slabs.
    pub count: u16,
}
