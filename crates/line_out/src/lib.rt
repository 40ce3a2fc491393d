//! Text that goes out line by line through a fixed buffer, to standard output or into a file, without memory.
//!
//! Read `end` first (where bytes go), then `line_out` (the buffer) and `numbers`, with `specs/Puts` beside them.
#![tactic(auto)]

mod end;
mod line_out;
mod numbers;

pub use end::{End, Said, Written};
pub use line_out::LineOut;
