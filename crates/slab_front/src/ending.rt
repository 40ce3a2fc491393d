// What a run finds before it stores or says anything, and why it may stop.
ghost use Rattle.std.specs.Prelude.{◌≡◌};
ghost use Rattle.slab_front.specs.declared.ending.Stop.TheVariants.{Fault, Memory};

use crate::search::Search;
use mill_model::Mill;
use slab_desk::Failed;
use std::alloc::AllocError;

/// A text to be said, and the status with which a run then ends.
#[derive(Drop)]
pub struct Ending {
    pub status: u8,
    pub text: String,
}

/// What a run found, of which nothing has been stored or said yet.
#[derive(Drop)]
pub enum Answer<'a> {
    /// A text.
    Text(Ending),
    /// A search, whose certificate is to be stored in this file, and whose report is to be said.
    Stored(&'a str, Mill, Search),
    /// A search, whose summary is to be said.
    SummedUp(Mill, Search),
}

/// Why a run has no answer: a file was refused, with this text; the outside failed; or memory ran out.
#[derive(Drop)]
pub enum Stop {
    Refused(String),
    Fault,
    Memory,
}

impl From<AllocError> for Stop {
    ghost from_gives = { λ _ stop. stop ≡ Memory };

    fn from(_: AllocError) -> Stop {
        Stop::Memory
    }
}

impl From<Failed> for Stop {
    ghost from_gives = { λ _ stop. stop ≡ Fault };

    fn from(_: Failed) -> Stop {
        Stop::Fault
    }
}
