//! What stands through a call of pricing.
ghost use Rattle.std.specs.Prelude.{◌≡◌, ◌+◌, IfOk, length};
ghost use Rattle.pricing_laws.specs.Frames.{AreColourKeys, IsFrame};
ghost use Rattle.slab_price.specs.Frames.{frame_of};
ghost use Rattle.slab_price.specs.Tasks.{problem_of};

use crate::chains::Chains;
use crate::groups::Groups;
use crate::task::Task;
use std::alloc::{AllocError, Global};

// What stands through a call of pricing.
#[derive(Drop)]
pub(crate) struct Frame {
    pub groups: Groups,
    // The heads by their colours.
    pub by_colour: Chains,
    // The orders by their heads.
    pub by_head: Chains,
    // For each load what a slab that holds it costs at least, with its sign turned.
    pub ends: Vec<i128>,
    // For each colour what the groups are worth at most whose head has it.
    pub worths: Vec<i128>,
    // The colours that orders have, those of greatest worth last.
    pub ranking: Vec<u16>,
    // No slab charges less.
    pub floor: i128,
}

impl Task<'_> {
    // For each head its colour, and 0 for other orders.
    fn colour_keys(&self, alloc: Global, heads: &[u16]) -> Result<Vec<u16>, AllocError>
        requires { length heads.now ≡ length self.now.mill.now.orders }
        ensures size { IfOk result (λ keys. length keys.items ≡ length heads.now) }
        ensures keys { IfOk result (λ keys. AreColourKeys self.now.mill.now heads.now keys.items) }
    {
        let mut keys = Vec::with_capacity(alloc, heads.len())?;
        for (order, head) in heads.iter().enumerate() {
            if usize::from(*head) == order {
                keys.push(self.mill.orders()[order].colour)?;
            } else {
                keys.push(0)?;
            }
        }
        Ok(keys)
    }

    // What stands through a call.
    pub(crate) fn frame(&self, alloc: Global) -> Result<Frame, AllocError>
        ensures { IfOk result (λ frame. IsFrame (problem_of self.now) (frame_of frame)) }
    {
        let count = self.mill.orders().len();
        let mut groups = Groups::new(alloc, count)?;
        groups.form(self.mill, self.decisions, self.prices);
        let keys = self.colour_keys(alloc, groups.heads())?;
        let by_colour = Chains::new(alloc, &keys, self.mill.colours() as usize + 1)?;
        let by_head = Chains::new(alloc, groups.heads(), count)?;
        let worths = self.worths(alloc, &groups)?;
        let ranking = self.ranking(alloc, &worths)?;
        Ok(Frame {
            groups,
            by_colour,
            by_head,
            ends: self.ends(alloc)?,
            worths,
            ranking,
            floor: self.least_charge(),
        })
    }
}
