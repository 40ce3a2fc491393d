use thiserror::Error;

/// No assignment of orders to groups and surplus slabs agrees with the decisions and this one.
#[derive(Clone, Copy, Debug, PartialEq, Eq, Error)]
#[error("the decision contradicts what follows from the earlier ones")]
pub struct Clash;
