//! What holds of every made mill: the contract of a function that does nothing.

ghost use Rattle.slab_start.specs.Plain.{MadeMillsArePlain};

/// First fit without a limit fills each slab of a made mill, one for each two orders, and one new slab fewer is
/// plainly refuted.
pub fn made_mills_are_plain()
    ensures { MadeMillsArePlain }
{}
