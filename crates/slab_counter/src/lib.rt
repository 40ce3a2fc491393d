//! Counters of 64 bits that stand still at their end: the one step, and what it means that a counter rose.
#![tactic(auto)]

ghost use Rattle.std.specs.Prelude.{◌≡◌};
ghost use Rattle.slab_counter.specs.Counter.{next_count, RoseLaw};

/// The next value of a counter, which stands still at its last value, 2^64 - 1.
#[inline]
pub fn raised(count: u64) -> u64
    ensures { result ≡ next_count count }
{
    count.saturating_add(1)
}

/// A counter that doesn't fall rose between two moments, or stands at its last value, exactly where it is at least the
/// next value of the earlier moment.
pub fn rose_law()
    ensures { RoseLaw }
{}
