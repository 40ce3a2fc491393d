use crate::Cover;
use mill_model::Prices;

/// What the relaxation of a node is.
#[derive(Drop)]
pub enum Relaxed {
    /// These prices refute the limits under the decisions.
    Refuted(Prices),

    /// A cover within the limits, by columns of the pool that agree with the decisions.
    Covered(Cover),

    /// Neither: one of the counters rose, or stands at its last value.
    Counted,
}
