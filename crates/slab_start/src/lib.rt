//! First fit, a quick plan from which a search starts, and mills that are made from a number.
//!
//! Read `weights` first (which order comes next), then `filling` (where it goes) and `first_fit`; `made` stands alone, and
//! `laws` says how first fit answers for a made mill.
#![tactic(auto)]

mod filling;
mod first_fit;
mod laws;
mod made;
mod weights;

pub use first_fit::FirstFit;
pub use laws::made_mills_are_plain;
pub use made::make_mill;
