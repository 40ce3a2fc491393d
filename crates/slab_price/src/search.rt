//! What the search for the best column goes by.
ghost use Rattle.std.proofs.Props.{props};
ghost use Rattle.pricing_laws.specs.Parts.{AreDistinct-prop};
ghost use Rattle.pricing_laws.specs.Frames.{IsFrame};
ghost use Rattle.slab_price.specs.Frames.{frame_of};
ghost use Rattle.slab_price.specs.Tasks.{problem_of};

use crate::frame::Frame;
use crate::task::Task;

// A task, and what stands through a call.
#[derive(Clone, Copy)]
pub(crate) struct Search<'a> {
    pub task: Task<'a>,
    pub frame: &'a Frame,
    ghost framed: { IsFrame (problem_of task) (frame_of frame.now) } by { Prim.hlevel (props, AreDistinct-prop) },
}
