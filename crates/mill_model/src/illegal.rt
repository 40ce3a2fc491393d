//! The rules that a plan may break.
use thiserror::Error;

/// The first rule that a plan breaks: of its places, then of each slab in turn, in this order. Orders and slabs are numbered
/// from 0.
#[derive(Clone, Copy, Debug, PartialEq, Eq, Error)]
pub enum Illegal {
    /// There isn't one place for each order.
    #[error("there isn't one place for each order")]
    Places,
    /// The place of this order is no slab.
    #[error("the place of order {0} is no slab")]
    Place(u16),
    /// This slab has no order.
    #[error("slab {0} has no order")]
    Empty(u16),
    /// The size of this new slab isn't listed.
    #[error("the size of slab {0} isn't listed")]
    Size(u16),
    /// This slab is a surplus slab that isn't in the yard.
    #[error("slab {0} is a surplus slab that isn't in the yard")]
    Yard(u16),
    /// An earlier slab is the same surplus slab as this one.
    #[error("slab {0} is the same surplus slab as an earlier one")]
    Twice(u16),
    /// The orders on this slab weigh more than its size.
    #[error("the orders on slab {0} weigh more than its size")]
    Load(u16),
    /// The orders on this slab have more different colours than the mill allows.
    #[error("the orders on slab {0} have more different colours than are allowed")]
    Colours(u16),
    /// An order on this slab is barred from it.
    #[error("an order on slab {0} is barred from it")]
    Barred(u16),
}
