ghost use Rattle.std.specs.Prelude.{ℕ, ◌≡◌, ◌+◌, ◌*◌, ◌^◌, ◌<◌, ◌≤◌, ℤ, pos, unsigned_abs, is_some, if◌then◌else◌, ◌*ℤ◌};
ghost use Rattle.slab_counter.specs.Counter.{next_count};
ghost use Rattle.slab_frac.specs.Fraction.{Fraction, IsKept, IsExactly, whole_of};

use crate::lowest::reduced;
use crate::wides::Wides;
use std::marker::Model;

/// A fraction in lowest terms: the numerator's absolute value is at most 2^62, and the denominator is 1 to 2^62.
#[derive(Clone, Copy, PartialEq, Eq, Debug)]
pub struct Frac {
    num: i64,
    den: u64,
}

impl Model for Frac {
    ghost use Rattle.slab_frac.specs.Fraction.{Fraction, IsKept};

    ghost Value = { Fraction };

    ghost view = { λ f. record { num = f.num; den = f.den } };

    ghost invariant = { λ f. IsKept (record { num = f.num; den = f.den }) };

    ghost inverse = { λ v. record { num = v.num; den = v.den } };
}

// The product of a numerator and a denominator.
#[inline(always)]
pub(crate) fn cross(num: i64, den: u64) -> i128
    requires num { unsigned_abs num ≤ 2 ^ 62 }
    requires den { den ≤ 2 ^ 62 }
    ensures value { result ≡ num *ℤ pos den }
    ensures bound { unsigned_abs result ≤ 2 ^ 124 }
{
    num as i128 * den as i128
}

impl Frac {
    // The fraction of two parts that are known to be in lowest terms and in range.
    #[inline]
    pub(crate) fn in_lowest_terms(num: i64, den: u64) -> Frac
        requires { IsKept (record { num = num; den = den }) }
        ensures { result ≡ record { num = num; den = den } }
    {
        Frac { num, den }
    }

    /// A whole number, of absolute value at most 2^62.
    #[inline]
    pub fn whole(n: i64) -> Frac
        requires { unsigned_abs n ≤ 2 ^ 62 }
        ensures { result ≡ whole_of n }
    {
        Frac { num: n, den: 1 }
    }

    /// The numerator, which has the sign.
    #[inline]
    pub fn num(&self) -> i64
        ensures value { result ≡ self.now.num }
        ensures kept { IsKept self.now }
    {
        self.num
    }

    /// The denominator, which is above 0.
    #[inline]
    pub fn den(&self) -> i64
        ensures value { result ≡ pos self.now.den }
        ensures kept { IsKept self.now }
    {
        self.den as i64
    }

    #[inline]
    pub(crate) fn denominator(&self) -> u64
        ensures value { result ≡ self.now.den }
        ensures kept { IsKept self.now }
    {
        self.den
    }

    /// The fraction `num / den` in lowest terms, or none where it is out of range, which is counted.
    pub fn of_parts(num: i64, den: u64, wides: &mut Wides) -> Option<Frac>
        requires { 0 < den }
        ensures exact { IsExactly (record { num = num; den = den }) result }
        ensures counter { wides.new ≡ (if is_some result then wides.old else next_count wides.old) }
        ensures grows { wides.old ≤ wides.new }
    {
        reduced(num as i128, den as u128, wides)
    }
}
