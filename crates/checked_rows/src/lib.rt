//! Rows of certificates: what `front_check` says of them, over a desk in memory and in pieces.
//!
//! Read `desks` (a desk with the files of a row) and `row` (a check over it); the rows are the tests.
#![tactic(auto)]

#[cfg(test)]
mod bad;
#[cfg(test)]
mod deep;
pub mod desks;
#[cfg(test)]
mod faults;
#[cfg(test)]
mod good;
#[cfg(test)]
mod kept;
#[cfg(test)]
mod marks;
#[cfg(test)]
mod pieces;
pub mod row;
