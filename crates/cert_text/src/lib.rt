//! The text of a certificate: what whoever writes, checks or stores one speaks of. Definitions and laws, and no code.
//!
//! Read `specs/Certificates` first, then `Lines` and `Texts`, with `Worked` beside them, and
//! last the laws, which `laws` lists.
#![tactic(auto)]

mod laws;

pub use laws::{
    each_shows_one, good_lines_are_read, no_proper_prefix, one_certificate,
    shown_covers_have_shares, trees_are_listed, what_is_shown_holds, worked_texts,
};
