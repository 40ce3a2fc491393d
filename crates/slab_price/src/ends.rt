//! What slabs cost at least, by the load that they hold.
ghost use Rattle.std.specs.Prelude.{◌≡◌, ◌+◌, ◌^◌, ◌<◌, ◌≤◌, ℕ, pos, ◌-ℤ◌, ◌≤ℤ◌, unsigned_abs, All, IfOk, length};
ghost use Rattle.mill_model.specs.Mill.{most_weight};
ghost use Rattle.mill_model.specs.declared.kind.Kind.{Kind};
ghost use Rattle.mill_model.specs.Columns.{IsInStock, size_of};
ghost use Rattle.pricing_laws.specs.Bounds.{AreEnds};
ghost use Rattle.pricing_laws.specs.Bounds.{IsEndOf};

use crate::task::Task;
use mill_model::Kind;
use std::alloc::{AllocError, Global};

// Less than the cost of any slab, with its sign turned.
const LEAST: i128 = -1_237_940_039_285_380_274_899_124_224;

// The greatest of some sizes, and no less than a first one.
fn greatest(sizes: &[u16], first: u16) -> u16
    requires first { first ≤ most_weight }
    requires sizes { All (λ size. size ≤ most_weight) sizes.now }
    ensures all { All (λ size. size ≤ result) sizes.now }
    ensures first { first ≤ result }
    ensures within { result ≤ most_weight }
{
    let mut most = first;
    for &size in sizes {
        most = most.max(size);
    }
    most
}

impl Task<'_> {
    // At least the size of each slab.
    fn room(&self) -> u16
        ensures most { (kind : Kind) → IsInStock self.now.mill.now kind
            → size_of self.now.mill.now kind ≤ result }
        ensures within { result ≤ most_weight }
    {
        greatest(self.mill.yard(), greatest(self.mill.sizes(), 0))
    }

    // What a new slab that holds the load costs at least, with its sign turned.
    fn end_of_new(&self, load: u32) -> i128
        ensures most { (size : ℕ)
            → IsEndOf self.now.mill.now self.now.prices.now load (Kind.New size) result }
        ensures small { unsigned_abs result ≤ 2 ^ 90 }
    {
        match self.table.size_for(load) {
            Some(size) => -self.cost(Kind::New(size)),
            None => LEAST,
        }
    }

    // The cost of a surplus slab, with its sign turned, where it holds the load and costs less than what was found before.
    fn end_of_old(&self, load: u32, slab: u16, before: i128) -> i128
        requires stock { slab < length self.now.mill.now.yard }
        requires small { unsigned_abs before ≤ 2 ^ 90 }
        ensures most { IsEndOf self.now.mill.now self.now.prices.now load (Kind.Old slab) result }
        ensures grows { before ≤ℤ result }
        ensures small { unsigned_abs result ≤ 2 ^ 90 }
    {
        if load > u32::from(self.mill.size_of(Kind::Old(slab))) {
            return before;
        }
        before.max(-self.cost(Kind::Old(slab)))
    }

    // What a slab that holds the load costs at least, with its sign turned.
    fn end(&self, load: u32) -> i128
        ensures most { (kind : Kind) → IsEndOf self.now.mill.now self.now.prices.now load kind result }
        ensures small { unsigned_abs result ≤ 2 ^ 90 }
    {
        let mut end = self.end_of_new(load);
        let count = self.mill.yard().len();
        for slab in 0..count {
            end = self.end_of_old(load, slab as u16, end);
        }
        end
    }

    // For each load up to the greatest size what a slab that holds it costs at least, with its sign turned.
    pub(crate) fn ends(&self, alloc: Global) -> Result<Vec<i128>, AllocError>
        ensures { IfOk result (λ ends. AreEnds self.now.mill.now self.now.prices.now ends.items) }
    {
        let room = u32::from(self.room());
        let mut ends = Vec::with_capacity(alloc, room as usize + 1)?;
        for load in 0..room + 1 {
            ends.push(self.end(load))?;
        }
        Ok(ends)
    }
}
