//! Readers of the files that describe a mill: its orders, its yard, and a plan. Each gives exactly what its grammar gives,
//! or the first word that can't stand.
//!
//! A file is a list of words, parted by white space (the bytes 9 to 13 and 32). A number is a word of ASCII digits, in which
//! leading zeros may stand.
//!
//! Read `words` first, then `fault`, `lists` and the files: `orders`, `yards` and `plans`. `laws` says that just the
//! texts of the grammar are read, and that each other text is refused for its first offence (`specs/Offences`).
#![tactic(auto)]

mod fault;
mod laws;
mod lists;
mod orders;
mod plans;
mod words;
mod yards;

pub use fault::{TextError, TextFault, Why};
pub use laws::{
    order_files_are_refused_for_first_offences, order_files_spell_mills,
    plan_files_are_refused_for_first_offences, plan_files_spell_plans,
    yard_files_are_refused_for_first_offences, yard_files_spell_yards,
};
pub use orders::read_orders;
pub use plans::read_plan;
pub use yards::read_yard;
