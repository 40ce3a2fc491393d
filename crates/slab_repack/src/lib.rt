//! Plans by large neighbourhoods: a few slabs are released and their orders packed anew.
//!
//! Read `judging` first (what any search here answers), then `facts` (a mill laid out flat), `size_sums` (where a search may
//! stop), `slab` and `layout` (the plan at work), `random`, `release` (which slabs are released), `items` and `column` (what lies
//! on them), `packing`, and `repack`.
#![tactic(auto)]

mod column;
mod facts;
mod items;
mod judging;
mod layout;
mod packing;
mod random;
mod release;
mod repack;
mod size_sums;
mod slab;

pub use judging::judged;
pub use repack::Repack;
