use crate::Cover;
use mill_model::{Ask, Plan, Prices};

/// What one node's turn answers.
#[derive(Drop)]
pub enum Turned {
    /// These prices refute the limits under the decisions.
    Refuted(Prices),

    /// A legal plan in order, within the limits, that agrees with the decisions.
    InBox(Plan),

    /// A cover within the limits, by columns that agree, so that no prices refute them; and an ask to split on, which doesn't
    /// follow.
    Spread(Cover, Ask),

    /// Neither prices nor a cover, since a counter rose; and the first ask that doesn't follow.
    Bare(Ask),
}
