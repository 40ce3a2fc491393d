//! The least loss that sums of sizes allow.

use mill_model::Mill;
use std::alloc::{AllocError, Global};

// No number of new slabs makes a sum.
const NONE: u16 = u16::MAX;

// Beyond so much work the sums are left out.
const MOST_WORK: usize = 4_000_000;

// For each sum of slab sizes the fewest new slabs that make it, together with some surplus slabs.
#[derive(Drop)]
pub(crate) struct SizeSums {
    // What all orders weigh.
    weight: usize,
    fewest: Vec<u16>,
}

impl SizeSums {
    pub(crate) fn new(alloc: Global, mill: &Mill, room: u32) -> Result<SizeSums, AllocError> {
        let weight = mill.total_weight() as usize;
        let most = weight.saturating_add(room as usize);
        let work = most.saturating_mul(mill.sizes().len().saturating_add(mill.yard().len()));
        if work > MOST_WORK {
            let fewest = Vec::new(alloc);
            return Ok(SizeSums { weight, fewest });
        }
        let mut fewest = vec![in alloc; NONE; most.saturating_add(1)]?;
        if let Some(first) = fewest.get_mut(0) {
            *first = 0;
        }
        for size in mill.yard() {
            add_surplus(&mut fewest, usize::from(*size));
        }
        add_new(&mut fewest, mill.sizes());
        Ok(SizeSums { weight, fewest })
    }

    // No plan with at most so many new slabs loses less, and none has so few where there is no such loss.
    pub(crate) fn least_loss(&self, count: usize) -> Option<u64> {
        if self.fewest.is_empty() {
            return Some(0);
        }
        for (loss, fewest) in self.fewest.iter().skip(self.weight).enumerate() {
            if usize::from(*fewest) <= count && *fewest != NONE {
                return Some(loss as u64);
            }
        }
        None
    }
}

// A surplus slab may be there too.
fn add_surplus(fewest: &mut [u16], size: usize) {
    let count = fewest.len();
    for back in 0..count {
        let sum = count - 1 - back;
        if sum >= size && fewest.get(sum - size).copied() == Some(0) {
            if let Some(there) = fewest.get_mut(sum) {
                *there = 0;
            }
        }
    }
}

// Any new slabs may be there too.
fn add_new(fewest: &mut [u16], sizes: &[u16]) {
    for sum in 0..fewest.len() {
        let least = fewest_for(fewest, sizes, sum);
        if let Some(there) = fewest.get_mut(sum) {
            *there = least;
        }
    }
}

// The fewest new slabs that make a sum, where those for lesser sums are known.
fn fewest_for(fewest: &[u16], sizes: &[u16], sum: usize) -> u16 {
    let mut least = fewest.get(sum).copied().unwrap_or(NONE);
    for size in sizes {
        let size = usize::from(*size);
        if size > 0 && size <= sum {
            let before = fewest.get(sum - size).copied().unwrap_or(NONE);
            least = least.min(before.saturating_add(1));
        }
    }
    least
}
