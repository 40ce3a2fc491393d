ghost use Rattle.std.specs.Prelude.{ℕ, ◌≡◌, ◌/◌, ◌*◌, ◌^◌, ◌<◌, ◌≤◌};
ghost use Rattle.std.specs.Int.{IsGcd};
ghost use Rattle.slab_frac.specs.Odd.{IsOdd, IsOddPart};

// The greatest word, above which a division takes two words.
pub(crate) const WORD: u128 = 0xFFFF_FFFF_FFFF_FFFF;

// How often 2 divides the number.
#[inline]
fn twos(n: u64) -> u32
    requires { 0 < n }
    ensures below { result < 64 }
    ensures odd { IsOddPart n result (n / 2 ^ result) }
{
    n.trailing_zeros()
}

// The greatest common divisor of two odd numbers. Each step takes the smaller off the greater, and the factors 2 off what is
// left.
#[inline]
fn odd_divisor(a: u64, b: u64) -> u64
    requires first { IsOdd a }
    requires second { IsOdd b }
    ensures { IsGcd a b result }
{
    let mut x = a;
    let mut y = b;
    while x != y {
        let rest = x.abs_diff(y);
        x = x.min(y);
        y = rest >> twos(rest);
    }
    x
}

/// The greatest common divisor of two words (the binary one of J. Stein, 1967).
pub fn word_divisor(a: u64, b: u64) -> u64
    ensures { IsGcd a b result }
{
    if b == 0 {
        return a;
    }
    if a == 0 {
        return b;
    }
    if a == 1 || b == 1 {
        return 1;
    }
    let first = twos(a);
    let second = twos(b);
    odd_divisor(a >> first, b >> second) << first.min(second)
}

/// The greatest common divisor.
pub fn wide_divisor(a: u128, b: u128) -> u128
    ensures { IsGcd a b result }
{
    let mut x = a;
    let mut y = b;
    while y > WORD {
        let rest = x % y;
        x = y;
        y = rest;
    }
    if y == 0 {
        return x;
    }
    let rest = x % y;
    word_divisor(y as u64, rest as u64) as u128
}

/// The quotient, without a division where the divisor is 1.
#[inline(always)]
pub fn word_quotient(n: u64, divisor: u64) -> u64
    requires { 0 < divisor }
    ensures { result ≡ n / divisor }
{
    if divisor == 1 {
        return n;
    }
    n / divisor
}
