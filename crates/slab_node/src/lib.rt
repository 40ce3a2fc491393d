//! One node's turn: its limits are refuted by prices, a plan within them is found, or a fractional cover shows that no prices refute them.
//!
//! The modules read in this order: `turned`, the answers, and `turning`, the public call over these parts: `plain`, limits that
//! plain prices refute; `groups`, `kinds`, `plans`, `settlement`, `stated` and `settle`, a node whose decisions are settled;
//! `multiples`, `wholes`, `whole_plan` and `choose`, what comes of a cover.
#![tactic(auto)]

mod choose;
mod groups;
mod kinds;
mod multiples;
mod plain;
mod plans;
mod settle;
mod settlement;
mod stated;
mod turned;
mod turning;
mod whole_plan;
mod wholes;

pub use slab_relax::{Cover, Tally};
pub use turned::Turned;
pub use turning::turn;
