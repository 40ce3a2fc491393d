//! Lists of orders that are used again.

ghost use Rattle.std.specs.Prelude.{◌≡◌, ◌++◌, [], OnOk};

use slab_filling::Slab;
use std::alloc::{AllocError, Global};

#[derive(Drop)]
pub(crate) struct Shelf {
    lists: Vec<Vec<u16>>,
}

impl Shelf {
    // So many lists, each with room for so many orders.
    pub(crate) fn new(alloc: Global, count: usize, room: usize) -> Result<Shelf, AllocError> {
        let mut lists = Vec::with_capacity(alloc, count)?;
        for _ in 0..count {
            lists.push(Vec::with_capacity(alloc, room)?)?;
        }
        Ok(Shelf { lists })
    }

    // A list without orders.
    pub(crate) fn take(&mut self, alloc: Global) -> Vec<u16>
        ensures { result.items ≡ [] }
    {
        match self.lists.pop() {
            Some(list) => emptied(list),
            None => Vec::new(alloc),
        }
    }

    // Takes the lists of all these slabs.
    pub(crate) fn take_back(&mut self, slabs: &mut Vec<Slab>) -> Result<(), AllocError>
        ensures { OnOk result (slabs.new.items ≡ []) }
    {
        while let Some(slab) = slabs.pop() {
            self.lists.push(slab.into_orders())?;
        }
        Ok(())
    }
}

fn emptied(list: Vec<u16>) -> Vec<u16>
    ensures { result.items ≡ [] }
{
    let mut list = list;
    list.clear();
    list
}
