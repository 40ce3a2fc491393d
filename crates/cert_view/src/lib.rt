//! The lines of a certificate, lent from its bytes, whole or fed in pieces. Nothing takes memory.
//!
//! Read `line` first, then `form`, `number` and `nums`, by which a text becomes a line, then `view` and `line_buf`, by which
//! bytes become lines, and `laws`.
#![tactic(auto)]

mod form;
mod laws;
mod line;
mod line_buf;
mod number;
mod nums;
mod view;

pub use laws::{read_is_text, text_is_read, text_is_short, whole_is_first, whole_is_text};
pub use line::{Line, Spelling};
pub use line_buf::LineBuf;
pub use nums::Nums;
pub use view::CertView;
