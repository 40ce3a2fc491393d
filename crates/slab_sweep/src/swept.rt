use mill_model::{Front, Head, OpenTree, Steps};

/// What a sweep answers.
#[derive(Drop)]
pub enum Swept {
    /// The points are the whole Pareto front; the last tree leaves no plan of fewer new slabs.
    Complete(Front),
    /// No plan is legal, as this tree shows.
    NoPlan(Steps),
    /// The next split would give a question's tree more nodes than the limit: the points found before, and that tree as far as
    /// it came.
    Budget(Head, OpenTree),
}
