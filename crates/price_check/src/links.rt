//! Numbers linked to chains by their keys.
ghost use Rattle.std.specs.Prelude.{◌+◌, ◌≡◌, ◌<◌, ◌≤◌, ℕ, length, slice_index, vec_capacity};
ghost use Rattle.mill_model.specs.Mill.{most_colours, most_orders};
ghost use Rattle.std.proofs.Math.ListN.{replicate};
ghost use Rattle.pricing_laws.specs.Chains.{AreChains, IsChainedFrom};
ghost use Rattle.price_check.specs.Frames.{chains_of};

use crate::chains::Chains;

// Fills a list with a value so many times.
fn refill(list: &mut Vec<u16>, value: u16, count: usize)
    requires { count ≤ vec_capacity list.old }
    ensures items { list.new.items ≡ replicate count value }
    ensures room { vec_capacity list.new ≡ vec_capacity list.old }
{
    list.clear();
    for _ in 0..count {
        list.push_reserved(value);
    }
}

// Puts the numbers, from the last to the first, before those of their key.
fn link(keys: &[u16], first: &mut [u16], next: &mut [u16])
    requires few { length keys.now ≤ most_orders }
    requires keys { (i : ℕ) → i < length keys.now → slice_index keys.now i < length first.old }
    requires none { IsChainedFrom (slice_index keys.now)
        (length keys.now) (length keys.now) first.old next.old }
    ensures { IsChainedFrom (slice_index keys.now) (length keys.now) 0 first.new next.new }
{
    let mut at = keys.len();
    while at > 0 {
        at -= 1;
        let key = keys[at] as usize;
        next[at] = first[key];
        first[key] = at as u16;
    }
}

impl Chains {
    // Takes the numbers by their keys, which are below a count.
    pub(crate) fn fill(&mut self, keys: &[u16], count: usize)
        requires few { length keys.now ≤ most_orders }
        requires count { count ≤ most_colours + 1 }
        requires keys { (i : ℕ) → i < length keys.now → slice_index keys.now i < count }
        ensures { AreChains (slice_index keys.now) (length keys.now) count (chains_of self.new) }
    {
        let end = keys.len() as u16;
        refill(&mut self.first, end, count);
        refill(&mut self.next, end, keys.len());
        link(keys, &mut self.first, &mut self.next);
    }
}
