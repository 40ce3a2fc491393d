//! Numbers that go by keys.
ghost use Rattle.std.specs.Prelude.{◌≡◌, ◌<◌, ◌≤◌, ℕ, IfOk, length, slice_index};
ghost use Rattle.mill_model.specs.Mill.{most_orders};
ghost use Rattle.pricing_laws.specs.Chains.{AreChains, IsChainedFrom};
ghost use Rattle.slab_price.specs.Frames.{chains_of};

use std::alloc::{AllocError, Global};

// Numbers from 0 on that have keys: for each key the first number that has it, and for each number the next one that has the
// same key; in place of a number that there isn't, how many numbers there are.
#[derive(Drop)]
pub(crate) struct Chains {
    pub first: Vec<u16>,
    pub next: Vec<u16>,
}

// Puts the numbers, from the last to the first, before those of their key.
fn link(keys: &[u16], first: &mut [u16], next: &mut [u16])
    requires few { length keys.now ≤ most_orders }
    requires keys { (i : ℕ) → i < length keys.now → slice_index keys.now i < length first.old }
    requires none { IsChainedFrom (slice_index keys.now)
        (length keys.now) (length keys.now) first.old next.old }
    ensures { IsChainedFrom (slice_index keys.now) (length keys.now) 0 first.new next.new }
{
    let mut at = keys.len();
    while at > 0 {
        at -= 1;
        let key = keys[at] as usize;
        next[at] = first[key];
        first[key] = at as u16;
    }
}

impl Chains {
    // The numbers by their keys, which are below a count.
    pub(crate) fn new(alloc: Global, keys: &[u16], count: usize) -> Result<Chains, AllocError>
        requires few { length keys.now ≤ most_orders }
        requires keys { (i : ℕ) → i < length keys.now → slice_index keys.now i < count }
        ensures { IfOk result (λ chains.
            AreChains (slice_index keys.now) (length keys.now) count (chains_of chains)) }
    {
        let end = keys.len() as u16;
        let mut first = vec![in alloc; end; count]?;
        let mut next = vec![in alloc; end; keys.len()]?;
        link(keys, &mut first, &mut next);
        Ok(Chains { first, next })
    }
}
