// Certificates by `check` alone, and their proper prefixes.
use crate::row::{THREE, TWO, ends_so, lines};
use front_check::{LineWhy, Verdict, check};
use mill_model::{Kind, Mill, Sums};
use mill_read::read_orders;
use std::alloc::{AllocError, Global};
use std::test::Fail;

const WHOLE: &str =
    "slabfront 1 / point 0 2 / new 4 1 / new 4 2 / leaf 1 0 0 0 / point 2 1 / new 10 1 2 / leaf 1 2 2 2 / done / leaf 0 1 1 0";

const SPLIT: &str =
    "slabfront 1 / point 5 2 / new 10 1 2 / new 10 3 / pair 1 2 / leaf 1 0 0 0 5 / leaf 1 0 5 5 -5 / done / leaf 0 2 1 1 1";

const EXCEEDED: &str =
    "slabfront 1 / point 0 2 / new 4 1 / new 4 2 / leaf 1 0 0 0 / point 2 1 / new 10 1 2 / leaf 1 2 2 2 / done / leaf 0 1 1 1";

// Whether the front has these points.
fn is_front(verdict: &Verdict, sums: &[Sums]) -> bool {
    match verdict {
        Verdict::Front(points) => points.list() == sums,
        _ => false,
    }
}

// Whether line 10 is a leaf that a slab of size 10 with both orders exceeds.
fn is_exceeded_by_both(verdict: &Verdict) -> bool {
    match verdict {
        Verdict::No { line, why } => *line == 10 && carries_both(why),
        _ => false,
    }
}

fn carries_both(why: &LineWhy) -> bool {
    match why {
        LineWhy::Column { kind, orders } => *kind == Kind::New(10)
            && orders.list() == [0, 1].as_slice(),
        _ => false,
    }
}

fn answer(alloc: Global, text: &str) -> Result<Verdict, Fail> {
    let mill = read_orders(alloc, TWO.orders.as_bytes())?;
    let bytes = lines(alloc, text)?;
    let verdict = check(alloc, &mill, &bytes)?;
    Ok(verdict)
}

#[test]
fn what_check_answers(rt: HostRuntime) -> Result<(), Fail> {
    let sums = [Sums { loss: 0, count: 2 }, Sums { loss: 2, count: 1 }];
    let whole = answer(rt.alloc(), WHOLE)?;
    assert!(rt; is_front(&whole, &sums));
    let exceeded = answer(rt.alloc(), EXCEEDED)?;
    assert!(rt; is_exceeded_by_both(&exceeded));
    Ok(())
}

// Whether no proper prefix is good.
fn has_no_good_prefix(alloc: Global, mill: &Mill, cert: &[u8]) -> Result<bool, AllocError> {
    for length in 0..cert.len() {
        let verdict = check(alloc, mill, &cert[..length])?;
        if !matches!(verdict, Verdict::No { .. }) {
            return Ok(false);
        }
    }
    Ok(true)
}

#[test]
fn proper_prefixes(rt: HostRuntime) -> Result<(), Fail> {
    for (given, cert) in [(TWO, WHOLE), (THREE, SPLIT)] {
        let mill = read_orders(rt.alloc(), given.orders.as_bytes())?;
        let cert = lines(rt.alloc(), cert)?;
        let none = has_no_good_prefix(rt.alloc(), &mill, &cert)?;
        assert!(rt; none);
    }
    Ok(())
}

// The last line has no line feed.
#[test]
fn a_last_byte_is_missing(rt: HostRuntime) -> Result<(), Fail> {
    let mut cert = lines(rt.alloc(), WHOLE)?;
    let _feed = cert.pop();
    let so = ends_so(rt.alloc(), TWO, &cert, 7, "certificate line 10 spelling")?;
    assert!(rt; so);
    Ok(())
}
