//! The pool of columns that the search shares: legal for one mill, distinct, in the order in which they came, and found by
//! their numbers or by what they are.
//!
//! Read `pool` first (what others call), then `column` and `flat` (columns in one list of orders), `index` (from a column to
//! its number), `last_basic` (which were basic), `fulls` and `add_error` (what a full pool answers), and `mill_copy`.
#![tactic(auto)]

mod add_error;
mod column;
mod flat;
mod fulls;
mod index;
mod last_basic;
mod mill_copy;
mod pool;

pub use add_error::AddError;
pub use column::ColId;
pub use fulls::Fulls;
pub use mill_model::Column;
pub use pool::Pool;
// A crate can name a pool in a contract only if the types of its fields are exported.
#[doc(hidden)]
pub use flat::Start;
#[doc(hidden)]
pub use last_basic::Basics;
