//! Fractions, and what leaves their range.
use slab_frac::{
    Frac, Wides, in_range, lowest_words, scale_all, wide_divisor, word_divisor, word_quotient,
};
use std::test::Fail;

// The greatest numerator and denominator.
const END: i64 = 0x4000_0000_0000_0000;

// A numerator and a denominator.
type Parts = (i64, i64);

fn fraction(parts: Parts, wides: &mut Wides) -> Option<Frac> {
    let (num, den) = parts;
    if den < 1 {
        return None;
    }
    Frac::of_parts(num, den.unsigned_abs(), wides)
}

#[test]
fn lowest_terms(rt: HostRuntime) {
    for (parts, wanted) in [
        ((6, 4), Some((3, 2))),
        ((-6, 4), Some((-3, 2))),
        ((0, 7), Some((0, 1))),
        ((-END, END), Some((-1, 1))),
        ((i64::MIN, 2), Some((-END, 1))),
        ((i64::MIN, 1), None),
        ((1, i64::MAX), None),
    ] {
        let mut wides = Wides::new();
        let answer = fraction(parts, &mut wides).map(|x| (x.num(), x.den()));
        assert!(rt; answer == wanted, "{parts:?}");
        assert!(rt;
            wides.count() == if wanted.is_none() { 1 } else { 0 },
            "{parts:?}"
        );
    }
}

#[test]
fn the_range_ends_at_two_to_the_62(rt: HostRuntime) {
    let end = END as i128;
    let mut wides = Wides::new();
    assert!(rt; in_range(end, &mut wides) == Some(END) && in_range(-end, &mut wides) == Some(-END));
    assert!(rt; wides.count() == 0);
    assert!(rt; in_range(end + 1, &mut wides) == None && in_range(-end - 1, &mut wides) == None);
    assert!(rt; wides.count() == 2);
}

#[test]
fn common_divisors(rt: HostRuntime) {
    assert!(rt; word_divisor(12, 18) == 6 && word_divisor(0, 5) == 5);
    assert!(rt; wide_divisor(1 << 100, 3 << 99) == 1 << 99);
    assert!(rt; lowest_words(12, 18) == (2, 3) && word_quotient(12, 5) == 2);
}

// The least common denominator of two fractions, and their numerators over it.
fn scaled(first: Parts, second: Parts, wides: &mut Wides) -> Option<(i64, [i64; 2])> {
    let list = [fraction(first, wides)?, fraction(second, wides)?];
    let mut out = [0, 0];
    let shared = scale_all(&list, wides, &mut out)?;
    Some((shared, out))
}

#[test]
fn common_denominators(rt: HostRuntime) {
    let mut wides = Wides::new();
    assert!(rt; scaled((1, 2), (-1, 6), &mut wides) == Some((6, [3, -1])));
    assert!(rt; wides.count() == 0);
    assert!(rt; scaled((1, END), (1, 3), &mut wides) == None);
    assert!(rt; wides.count() == 1);
}
