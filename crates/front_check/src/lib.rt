//! What the program `slabcheck` does: its words, the files that they name, and what it says of a certificate.
//!
//! Read `words` first (what is asked), then `ending` (what a run finds before it says anything), `files` and `reading` (how it
//! reads a mill and a certificate), `verdict` and `texts` (what it says), and last `program`, the whole run. What a run owes
//! stands in `specs/Owed`.
#![tactic(auto)]

mod ending;
mod files;
mod laws;
mod program;
mod reading;
mod texts;
mod verdict;
mod words;

pub use cert_check::{Checker, Failure, LineWhy, OrderList, Points, Verdict, check};
pub use cert_keep::{CertRead, CertReader, CutRead, CutReader, TooLong, read_cert, read_cut};
pub use laws::{checks_are_read, first_wrong_of_check_is_told, one_answer};
pub use program::check_run;
pub use words::{CheckJob, CheckUsage, read_check_words};
