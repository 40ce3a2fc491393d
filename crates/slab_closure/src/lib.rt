//! How surplus slabs and orders stand to each other under branching decisions: in one group, in two, or either, with all
//! consequences drawn. Read `relation`, `square`, `joining` and `parting`, `sizes`, `closure`.
#![tactic(auto)]

mod closure;
mod joining;
mod parting;
mod relation;
mod sizes;
mod square;

pub use closure::Closure;
pub use relation::Relation;
