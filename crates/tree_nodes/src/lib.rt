//! The nodes of a finished search tree: each question with its mark in one list, as the steps and marks of a certificate are two.
//!
//! Read `node` first, then `steps` (from steps and marks to nodes, and back) and `laws`; of the definitions `Nodes`.
#![tactic(auto)]

mod laws;
mod node;
mod steps;
#[cfg(test)]
mod tests;

pub use laws::{nodes_and_steps_are_one, trees_are_their_nodes};
pub use node::Node;
pub use steps::{nodes_of_steps, steps_of_nodes};
