// What a run finds before it says anything.
ghost use Rattle.std.specs.Prelude.{◌≡◌};
ghost use Rattle.front_check.specs.declared.ending.Stop.TheVariants.{Fault, Memory};

use slab_desk::Failed;
use std::alloc::AllocError;

/// A text to be said, and the status with which a run then ends.
#[derive(Drop)]
pub struct Ending {
    pub status: u8,
    pub text: String,
}

/// Why a run has no answer: a file was refused, with this text; the outside failed; or memory ran out.
#[derive(Drop)]
pub enum Stop {
    Refused(String),
    Fault,
    Memory,
}

impl From<AllocError> for Stop {
    ghost from_gives = { λ _ stop. stop ≡ Memory };

    fn from(_: AllocError) -> Stop {
        Stop::Memory
    }
}

impl From<Failed> for Stop {
    ghost from_gives = { λ _ stop. stop ≡ Fault };

    fn from(_: Failed) -> Stop {
        Stop::Fault
    }
}
