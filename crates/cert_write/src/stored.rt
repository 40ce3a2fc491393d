use mill_model::{Front, Head, OpenTree, Steps};

/// The parts of a certificate that is to be stored.
#[derive(Clone, Copy)]
pub enum Stored<'a> {
    /// A whole front, with the last tree.
    Whole(&'a Front),
    /// No point, since no plan is legal, as this tree shows.
    NoPlan(&'a Steps),
    /// The points so far, and the outline of the tree that was cut off.
    Cut(&'a Head, &'a OpenTree),
}
