//! Rows of single parts: what one call of a crate below the top answers, on numbers and mills that a reader can compute by
//! hand.
//!
//! Read `mills` (a mill by its files) and `decided` (decisions in it) first; each other module is one part, and reads alone.
#![tactic(auto)]

#[cfg(test)]
mod decided;
#[cfg(test)]
mod deciding;
#[cfg(test)]
mod fractions;
#[cfg(test)]
mod leaves;
#[cfg(test)]
mod masters;
#[cfg(test)]
mod mills;
#[cfg(test)]
mod pools;
#[cfg(test)]
mod pricing;
#[cfg(test)]
mod repacking;
#[cfg(test)]
mod sizes;
#[cfg(test)]
mod starting;
#[cfg(test)]
mod turns;
