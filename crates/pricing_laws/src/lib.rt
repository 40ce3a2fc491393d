//! The definitions and lemmas of pricing, on which the solver's search and the checker's stand. There is no code here.
//!
//! The definitions are read in this order: `Gains`, `Groups`, `Groupings`, `Problems` (what is priced), `Parts` (parts of a
//! list), `Colours` (which groups and columns are of some colours), `Worths` (a bound on sets of colours), `Bounds` (a table of
//! bounds on some groups beside a load), `Choices` (the columns that a search has before it), `Packs` (orders on one slab),
//! `Chains`, `Frames` and `Grids` (what stands through a search), `Searches` (over sets of colours) and `Hunts` (over the
//! groups of a set).
#![tactic(auto)]
