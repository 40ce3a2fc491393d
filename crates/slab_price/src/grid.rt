//! What a table is made from.
ghost use Rattle.pricing_laws.specs.Grids.{IsGrid};

use crate::groups::Groups;

// The groups of a queue, and the loads that the columns of a table stand for: the multiples of a step.
#[derive(Clone, Copy)]
pub(crate) struct Grid<'a> {
    pub groups: &'a Groups,
    pub ends: &'a [i128],
    pub heads: &'a [u16],
    pub step: usize,
    pub width: usize,
    ghost fits: { IsGrid groups.now ends.now heads.now step width },
}
