//! The mill of a session: sizes that stay, orders that come and go, and a yard that is replaced.
#![tactic(auto)]

mod session_mill;

pub use session_mill::SessionMill;

#[cfg(test)]
mod tests;
