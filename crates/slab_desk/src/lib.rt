//! The outside as the product sees it: files by name, standard output, and a count of faults.
//!
//! Read `desk` first (what every desk promises), then `noted` (names that only clauses read), `calls`, `mem_file` and `mem_desk`
//! (a desk for tests, in memory), `whole` and `reserved` (what reads and holds a whole file), and last `messages` and `real_desk`.
#![tactic(auto)]

mod calls;
mod desk;
mod mem_desk;
mod mem_file;
mod messages;
mod noted;
mod real_desk;
mod reserved;
mod whole;

pub use calls::Act;
pub use desk::{Desk, Failed};
pub use mem_desk::MemDesk;
pub use noted::Noted;
pub use real_desk::RealDesk;
pub use whole::{ReadFail, read_all, say_all, write_all};
