//! How each program begins: it holds three descriptors, and fetches its words; and how it ends where it can't, or its words can't
//! stand.
//!
//! Read `no_start` first (why a program can't run, and how it then ends), then `beginning`, `streams` and `usage`.
#![tactic(auto)]

mod beginning;
mod no_start;
mod streams;
mod usage;

pub use beginning::{Begun, start};
pub use no_start::{NoStart, end_without};
pub use usage::tell_usage;
