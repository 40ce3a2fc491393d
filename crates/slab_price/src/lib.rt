//! Pricing: the column of greatest excess (least reduced cost) over all columns that the decisions allow.
//!
//! The modules are read in this order: `pricing` (what others call) and `found` (its answer), `task` and `costs` (a mill with
//! all that is asked about it), `groups` and `apart` (orders that move as one), `frame` with `chains`, `ends`, `worths` and
//! `ranking` (what stands through a call), `search`, `sets`, `queue`, `gather`, `grid` and `table` (sets of colours and their
//! groups), `hunt`, `walk`, `picks`, `offer` and `best` (the columns of a set, and the best so far).
#![tactic(auto)]

mod apart;
mod best;
mod chains;
mod costs;
mod ends;
mod found;
mod frame;
mod gather;
mod grid;
mod groups;
mod hunt;
mod offer;
mod picks;
mod pricing;
mod queue;
mod ranking;
mod search;
mod sets;
mod table;
mod task;
mod walk;
mod worths;

pub use found::Found;
pub use pricing::worst;
