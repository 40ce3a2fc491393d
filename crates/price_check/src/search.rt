//! What the search for a column that exceeds goes by.
ghost use Rattle.std.proofs.Props.{props};
ghost use Rattle.pricing_laws.specs.Parts.{AreDistinct-prop};
ghost use Rattle.pricing_laws.specs.Frames.{IsFrame};
ghost use Rattle.price_check.specs.Frames.{AreMarkedIn, frame_of};
ghost use Rattle.price_check.specs.Leaves.{problem_of};

use crate::frame::Frame;
use crate::leaf::Leaf;

// A leaf, and what stands through its test.
#[derive(Clone, Copy)]
pub(crate) struct Search<'a> {
    pub leaf: Leaf<'a>,
    pub frame: &'a Frame,
    ghost framed: { IsFrame (problem_of leaf) (frame_of frame.now) } by { Prim.hlevel (props, AreDistinct-prop) },
    ghost apart: { AreMarkedIn leaf frame.now.apart.items } by { Prim.hlevel (props) },
}
