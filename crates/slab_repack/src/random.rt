//! Numbers that look drawn, the same in each run.

// A linear congruential generator, with the constants of Knuth's MMIX.
#[derive(Drop)]
pub(crate) struct Random {
    state: u64,
}

const HALF: u64 = 4_294_967_296;

impl Random {
    pub(crate) fn new() -> Random {
        Random {
            state: 88_172_645_463_325_252,
        }
    }

    // A number below a count, or 0.
    pub(crate) fn below(&mut self, count: u32) -> u32 {
        self.state = self
            .state
            .wrapping_mul(6_364_136_223_846_793_005)
            .wrapping_add(1_442_695_040_888_963_407);
        ((self.state / HALF) % u64::from(count.max(1))) as u32
    }

    // A number below a length, or 0.
    pub(crate) fn place(&mut self, length: usize) -> usize {
        self.below(length.min(1_000_000) as u32) as usize
    }
}
