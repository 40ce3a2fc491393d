//! The linear relaxation of a search node, by column generation: prices that refute the node's limits, or a fractional cover.
//!
//! The modules read in this order: `node`, `tally`, `cover` and `relaxed`, what a relaxation is asked and answers; `rows`,
//! `entries` and `restricted`, a node as a master over columns of a pool; `recent`, with which columns it begins; `duals`, the
//! master's numbers as prices; `round`, one master, its prices, and the column that exceeds them most; `used` and `least`, the
//! master's multipliers as a cover; `relaxing`, the public call.
#![tactic(auto)]

mod cover;
mod duals;
mod entries;
mod least;
mod node;
mod recent;
mod relaxed;
mod relaxing;
mod restricted;
mod round;
mod rows;
mod tally;
mod used;

pub use cover::Cover;
pub use node::Node;
pub use relaxed::Relaxed;
pub use relaxing::relax;
pub use tally::Tally;
