//! One question's search tree: which plan within a count limit has the least loss, or that there is none, and why.
//!
//! Read `node` and `nodes` (what a tree has and how that is counted), `path` and `workplace` (the decisions above a node),
//! `bounding` (a node's turn at a smaller loss limit) and `showing` (a cover as a split's mark), then `tree` with its parts:
//! `tree::run` searches, `tree::tighten` writes a finished tree anew (over `rest` and `keeping`), `tree::ends` hands the tree out.
//! What only makes it fast comes after that: `guide` with `questions`, `shares` and `records` chooses the question to split on,
//! `neighbours` rounds covers to plans and seeks others near them, `dives` with `trail` looks for plans below a node.
#![tactic(auto)]

mod bounding;
mod dives;
mod guide;
mod keeping;
mod neighbours;
mod node;
mod nodes;
mod path;
mod questions;
mod records;
mod rest;
mod shares;
mod showing;
mod trail;
mod tree;
mod workplace;

pub use node::Node;
pub use nodes::Nodes;
pub use tree::{Ended, Phase, Tree};
