//! The tariff of a front: which of its points is the cheapest, by the prices of a unit of loss and of a new slab.
//!
//! Read `specs/Tariffs` first, then `span` and `ratio`, `ends` (where a point's span begins and ends), `spans`, `costs`
//! and `laws`.
#![tactic(auto)]

mod costs;
mod ends;
mod laws;
mod ratio;
mod span;
mod spans;
#[cfg(test)]
mod tests;

pub use costs::cheapest;
pub use laws::{
    cheapest_points_are_cheapest_plans, each_ratio_has_a_span, fronts_are_staircases,
    points_of_spans_are_cheapest_plans, spans_touch,
};
pub use span::{MOST_UNIT_PRICE, Span};
pub use spans::intervals;
