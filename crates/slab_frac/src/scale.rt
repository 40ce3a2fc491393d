ghost use Rattle.std.specs.Prelude.{ℕ, ◌≡◌, ◌+◌, ◌^◌, ◌<◌, ◌≤◌, ℤ, pos, unsigned_abs, IfSome, IfNone, is_some, if◌then◌else◌, length};
ghost use Prim.Native.Nat.{◌∣◌};
ghost use Rattle.slab_counter.specs.Counter.{next_count};
ghost use Rattle.slab_frac.specs.Scaled.{IsLeastMultiple, IsLeastDenominator, IsMultipleBy, IsCommonForm, HasNoCommonForm};

use crate::divisor::{word_divisor, word_quotient};
use crate::frac::{Frac, cross};
use crate::lowest::LIMIT;
use crate::wides::Wides;

// The least common multiple.
fn least_multiple(a: u64, b: u64) -> u128
    requires { 0 < b }
    ensures { IsLeastMultiple a b result }
{
    let rest = word_quotient(a, word_divisor(a, b));
    rest as u128 * b as u128
}

// The least common denominator, or none where it is out of range.
fn least_denominator(list: &[Frac]) -> Option<u64>
    ensures least { IfSome result (λ d. IsLeastDenominator list.now d) }
    ensures bound { IfSome result (λ d. d ≤ 2 ^ 62) }
    ensures none { IfNone result ((d : ℕ) → IsLeastDenominator list.now d → d ≤ 2 ^ 62 → ⊥) }
{
    let mut shared: u64 = 1;
    for x in list {
        let next = least_multiple(shared, x.denominator());
        if next > LIMIT {
            return None;
        }
        shared = next as u64;
    }
    Some(shared)
}

// The product of the fraction and `shared`.
fn multiple(x: &Frac, shared: u64) -> i128
    requires bound { shared ≤ 2 ^ 62 }
    requires divides { x.now.den ∣ shared }
    ensures { IsMultipleBy shared x.now result }
{
    cross(x.num(), word_quotient(shared, x.denominator()))
}

/// Writes the products of the fractions with their least common denominator into `out`, which is as long as the list,
/// and answers that denominator, which is 1 for an empty list. None comes exactly where that denominator or a product
/// is beyond 2^62 in absolute value, which is counted; `out` then holds whatever was written so far.
pub fn scale_all(list: &[Frac], wides: &mut Wides, out: &mut [i64]) -> Option<i64>
    requires { length list.now ≡ length out.old }
    ensures value { IfSome result (λ d. IsCommonForm list.now d out.new) }
    ensures none { IfNone result (HasNoCommonForm list.now) }
    ensures counter { wides.new ≡ (if is_some result then wides.old else next_count wides.old) }
    ensures grows { wides.old ≤ wides.new }
{
    let Some(shared) = least_denominator(list) else {
        wides.raise();
        return None;
    };
    for (i, x) in list.iter().enumerate() {
        let scaled = multiple(x, shared);
        if scaled.unsigned_abs() > LIMIT {
            wides.raise();
            return None;
        }
        out[i] = scaled as i64;
    }
    Some(shared as i64)
}
