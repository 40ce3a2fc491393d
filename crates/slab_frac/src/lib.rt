//! Exact fractions in lowest terms, with a count of the results that left their range.
//!
//! Read `wides` first (the count), then `divisor` and `lowest` (lowest terms), `frac` (a fraction and its arithmetic) and last
//! `scale` (fractions over one denominator).
#![tactic(auto)]

mod divisor;
mod frac;
mod lowest;
mod scale;
mod wides;

pub use divisor::{wide_divisor, word_divisor, word_quotient};
pub use frac::Frac;
pub use lowest::{in_range, lowest_words};
pub use scale::scale_all;
pub use wides::Wides;
