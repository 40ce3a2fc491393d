ghost use Rattle.std.specs.Prelude.{◌≡◌};
ghost use Rattle.slab_columns.specs.declared.add_error.AddError.TheVariants.{Memory};

use std::alloc::AllocError;
use thiserror::Error;

/// Why a column was not added.
#[derive(Clone, Copy, Debug, PartialEq, Eq, Error)]
pub enum AddError {
    /// The pool has as many columns as it may hold, and this one isn't among them.
    #[error("the pool is full")]
    Full,
    /// There was no memory for the column.
    #[error("out of memory")]
    Memory,
}

impl From<AllocError> for AddError {
    ghost from_gives = { λ _ e. e ≡ Memory };

    fn from(_: AllocError) -> AddError {
        AddError::Memory
    }
}
