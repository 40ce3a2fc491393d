//! Worked rows: what `slab_front::run` says and stores for given words and files, over a desk in memory.
//!
//! Read `desks` (a desk with the files of a row) and `row` (a run over it); the rows are the tests.
#![tactic(auto)]

#[cfg(test)]
pub mod desks;
#[cfg(test)]
mod faults;
#[cfg(test)]
mod judge;
#[cfg(test)]
mod many;
#[cfg(test)]
mod memory;
#[cfg(test)]
mod resume;
#[cfg(test)]
pub mod row;
#[cfg(test)]
mod solve;
#[cfg(test)]
mod usage;
