//! Why a line wasn't read.
ghost use Rattle.std.specs.Prelude.{◌≡◌};
ghost use Rattle.session_script.specs.declared.error.LineError.TheVariants.{Memory};

use crate::line::Why;
use std::alloc::AllocError;
use thiserror::Error;

/// Why a line wasn't read: by the first rule that it breaks, or for want of memory, which may come
/// for any line.
#[derive(Clone, Copy, Debug, PartialEq, Eq, Error)]
pub enum LineError {
    /// It can't stand.
    #[error("{0}")]
    Bad(Why),
    /// There was no memory for its numbers.
    #[error("out of memory")]
    Memory,
}

impl From<AllocError> for LineError {
    ghost from_gives = { λ _ e. e ≡ Memory };

    fn from(_: AllocError) -> LineError {
        LineError::Memory
    }
}
