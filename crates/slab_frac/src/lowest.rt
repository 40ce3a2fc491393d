ghost use Rattle.std.specs.Prelude.{ℕ, ◌≡◌, ◌+◌, ◌*◌, ◌^◌, ◌<◌, ◌≤◌, ℤ, pos, unsigned_abs, IfSome, IfNone, is_some, if◌then◌else◌, ◌*ℤ◌};
ghost use Rattle.slab_counter.specs.Counter.{next_count};
ghost use Rattle.slab_frac.specs.Fraction.{IsExactly, signed_like};
ghost use Rattle.slab_frac.specs.Lowest.{AreLowest};

use crate::divisor::{WORD, wide_divisor, word_divisor, word_quotient};
use crate::frac::Frac;
use crate::wides::Wides;

// The largest absolute value of a numerator, and the largest denominator.
pub(crate) const LIMIT: u128 = 0x4000_0000_0000_0000;

/// Two numbers, divided by their greatest common divisor.
#[inline(always)]
pub fn lowest_words(size: u64, den: u64) -> (u64, u64)
    requires { 0 < den }
    ensures { AreLowest size den result.0 result.1 }
{
    let shared = word_divisor(size, den);
    (word_quotient(size, shared), word_quotient(den, shared))
}

// Two numbers, divided by their greatest common divisor.
#[inline(always)]
pub(crate) fn lowest(size: u128, den: u128) -> (u128, u128)
    requires { 0 < den }
    ensures { AreLowest size den result.0 result.1 }
{
    if size <= WORD && den <= WORD {
        let (top, bottom) = lowest_words(size as u64, den as u64);
        return (top as u128, bottom as u128);
    }
    let shared = wide_divisor(size, den);
    (size / shared, den / shared)
}

/// The number in 64 bits, or none where its absolute value is beyond 2^62, which is counted.
#[inline(always)]
pub fn in_range(n: i128, wides: &mut Wides) -> Option<i64>
    ensures value { IfSome result (λ z. z ≡ n) }
    ensures bound { IfSome result (λ z. unsigned_abs z ≤ 2 ^ 62) }
    ensures none { IfNone result (2 ^ 62 < unsigned_abs n) }
    ensures counter { wides.new ≡ (if is_some result then wides.old else next_count wides.old) }
    ensures grows { wides.old ≤ wides.new }
{
    if n.unsigned_abs() > LIMIT {
        wides.raise();
        return None;
    }
    Some(n as i64)
}

// The number `size` with the sign of `like`.
#[inline(always)]
pub(crate) fn signed(size: u128, like: i128) -> i64
    requires { size ≤ 2 ^ 62 }
    ensures { result ≡ signed_like like (pos size) }
{
    let unsigned = size as i64;
    if like < 0 { -unsigned } else { unsigned }
}

// The fraction `num / den` in lowest terms. A result out of range is counted.
#[inline(always)]
pub(crate) fn reduced(num: i128, den: u128, wides: &mut Wides) -> Option<Frac>
    requires { 0 < den }
    ensures exact { IsExactly (record { num = num; den = den }) result }
    ensures counter { wides.new ≡ (if is_some result then wides.old else next_count wides.old) }
{
    let (top, bottom) = lowest(num.unsigned_abs(), den);
    if top > LIMIT || bottom > LIMIT {
        wides.raise();
        return None;
    }
    Some(Frac::in_lowest_terms(signed(top, num), bottom as u64))
}
