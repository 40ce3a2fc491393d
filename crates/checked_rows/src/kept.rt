// Certificates that are read and kept.
use crate::row::{STUCK, THREE, TWO, lines};
use front_check::{CertRead, CutRead, CutReader, LineWhy, read_cert, read_cut};
use mill_model::{Head, Mark, Mill, Proved, Sums, Version};
use mill_read::read_orders;
use std::alloc::{AllocError, Global};
use std::test::Fail;

const WHOLE: &str =
    "slabfront 1 / point 0 2 / new 4 1 / new 4 2 / leaf 1 0 0 0 / point 2 1 / new 10 1 2 / leaf 1 2 2 2 / done / leaf 0 1 1 0";

const CUT: &str = "slabfront 1 / point 0 2 / new 4 1 / new 4 2 / leaf 1 0 0 0 / cut / open";

const SPREAD: &str =
    "slabfront 2 / point 5 2 / new 10 1 2 / new 10 3 / spread 2 / cnew 1 10 1 2 / cnew 1 10 1 3 / cnew 1 10 2 3 / pair 1 2 / leaf 1 0 0 0 5 / leaf 1 0 5 5 -5 / done / leaf 0 2 1 1 1";

// The points' sums.
fn sums_of(alloc: Global, points: &[Proved]) -> Result<Vec<Sums>, AllocError> {
    let mut sums = Vec::new(alloc);
    for point in points {
        sums.push(point.sums())?;
    }
    Ok(sums)
}

// The sums of the points of a cut; none of a bad one.
fn points_of(alloc: Global, cut: &CutRead) -> Result<Vec<Sums>, AllocError> {
    match cut {
        CutRead::Head(head) => sums_of(alloc, head.points()),
        CutRead::No { .. } => Ok(Vec::new(alloc)),
    }
}

fn cut_of(alloc: Global, mill: &Mill, text: &str) -> Result<CutRead, AllocError> {
    let bytes = lines(alloc, text)?;
    read_cut(alloc, mill, &bytes)
}

// The answer of a reader that is fed one byte after another.
fn cut_by_bytes(alloc: Global, mill: &Mill, bytes: &[u8]) -> Result<CutRead, AllocError> {
    let mut reader = CutReader::new(alloc, mill)?;
    for byte in bytes {
        reader = reader.feed(alloc, &[*byte])?;
    }
    Ok(reader.end())
}

#[test]
fn cuts_are_read(rt: HostRuntime) -> Result<(), Fail> {
    let mill = read_orders(rt.alloc(), TWO.orders.as_bytes())?;
    let cut = cut_of(rt.alloc(), &mill, CUT)?;
    let points = points_of(rt.alloc(), &cut)?;
    assert_eq!(rt; points.as_slice(), [Sums { loss: 0, count: 2 }].as_slice());
    Ok(())
}

#[test]
fn cuts_are_read_in_pieces(rt: HostRuntime) -> Result<(), Fail> {
    let mill = read_orders(rt.alloc(), TWO.orders.as_bytes())?;
    let bytes = lines(rt.alloc(), CUT)?;
    let cut = cut_by_bytes(rt.alloc(), &mill, &bytes)?;
    let points = points_of(rt.alloc(), &cut)?;
    assert_eq!(rt; points.as_slice(), [Sums { loss: 0, count: 2 }].as_slice());
    Ok(())
}

#[test]
fn whole_certificates_are_no_cuts(rt: HostRuntime) -> Result<(), Fail> {
    let mill = read_orders(rt.alloc(), TWO.orders.as_bytes())?;
    let whole = cut_of(rt.alloc(), &mill, WHOLE)?;
    assert!(rt; is_expect_at_9(&whole));
    Ok(())
}

fn is_expect_at_9(cut: &CutRead) -> bool {
    match cut {
        CutRead::No { line, why } => *line == 9 && matches!(why, LineWhy::Expect),
        CutRead::Head(_) => false,
    }
}

// What was kept of a certificate; of a whole one its version, and how many shares its first mark has.
#[derive(Clone, Copy, PartialEq)]
enum Kept {
    Whole(Version, usize),
    NoPlan,
    Cut,
    Nothing,
}

fn kept_of(cert: &CertRead) -> Kept {
    match cert {
        CertRead::Whole(version, front) => Kept::Whole(*version, shares_of(front.head())),
        CertRead::NoPlan(..) => Kept::NoPlan,
        CertRead::Cut(..) => Kept::Cut,
        CertRead::No { .. } => Kept::Nothing,
    }
}

// How many shares the first mark of the first point has.
fn shares_of(head: &Head) -> usize {
    let Some(point) = head.points().first() else {
        return 0;
    };
    match point.steps().marks().first() {
        Some(Mark::Spread(shown)) => shown.shares().len(),
        _ => 0,
    }
}

fn read_and_kept(alloc: Global, orders: &str, text: &str) -> Result<Kept, Fail> {
    let mill = read_orders(alloc, orders.as_bytes())?;
    let bytes = lines(alloc, text)?;
    let cert = read_cert(alloc, &mill, &bytes)?;
    Ok(kept_of(&cert))
}

#[test]
fn certificates_are_kept(rt: HostRuntime) -> Result<(), Fail> {
    let rows = [
        (THREE, SPREAD, Kept::Whole(Version::Two, 3)),
        (TWO, WHOLE, Kept::Whole(Version::One, 0)),
        (TWO, CUT, Kept::Cut),
        (STUCK, "slabfront 1 / done / leaf 0 0 1", Kept::NoPlan),
        (STUCK, "slabfront 1 / done", Kept::Nothing),
    ];
    for (given, cert, want) in rows {
        let kept = read_and_kept(rt.alloc(), given.orders, cert)?;
        assert!(rt; kept == want, "{cert}");
    }
    Ok(())
}
