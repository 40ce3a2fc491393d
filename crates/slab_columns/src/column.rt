/// The number of a column: its place in the pool's list, from 0.
#[derive(Clone, Copy, Debug, PartialEq, Eq)]
pub struct ColId(pub u16);
