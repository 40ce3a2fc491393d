//! Rows of what is read and written. Read `files` (input files), `lines` and `pieces` (lines of certificates), `desks` and `real`
//! (the ends of a desk), and `written` (certificates, summaries, and lines that fill a buffer).
#![tactic(auto)]

#[cfg(test)]
mod desks;
#[cfg(test)]
mod files;
#[cfg(test)]
mod lines;
#[cfg(test)]
mod pieces;
#[cfg(test)]
mod real;
#[cfg(test)]
mod written;
