//! The points of a trimmed certificate.
ghost use Rattle.std.specs.Prelude.{◌≡◌, IfOk, OnOk, None};
ghost use Rattle.mill_model.specs.Fronts.{IsGoodFrom, IsGoodPoint, below, count_before};
ghost use Rattle.cert_trim.specs.Certificates.{AreTrimmedFrom, IsTrimmedPoint};
ghost use Rattle.cert_trim.specs.Walks.{IsFor};

use crate::walk::Walk;
use mill_model::{Head, Limits, Mill, Proved, Sums};
use std::alloc::{AllocError, Global};

// One less than the count of a point, where there is one.
pub(crate) fn count_below(before: Option<Sums>) -> Option<i64>
    ensures { result ≡ below (count_before before) }
{
    match before {
        Some(sums) => Some(i64::from(sums.count) - 1),
        None => None,
    }
}

// The point with its trimmed tree.
fn trim_point(
    alloc: Global,
    walk: &mut Walk,
    mill: &Mill,
    before: Option<Sums>,
    point: Proved,
) -> Result<Proved, AllocError>
    requires walk { IsFor mill.now walk.old }
    requires good { IsGoodPoint mill.now before point }
    ensures walk { OnOk result (IsFor mill.now walk.new) }
    ensures trimmed { IfOk result (IsTrimmedPoint mill.now before point) }
{
    let (sums, plan, steps) = point.into_parts();
    let limits = Limits {
        loss: Some(i64::from(sums.loss) - 1),
        count: count_below(before),
    };
    let shorter = walk.trim_steps(alloc, mill, limits, steps)?;
    Ok(Proved::new(sums, plan, shorter))
}

// The points with their trimmed trees.
pub(crate) fn trim_head(
    alloc: Global,
    walk: &mut Walk,
    mill: &Mill,
    head: Head,
) -> Result<Head, AllocError>
    requires walk { IsFor mill.now walk.old }
    requires good { IsGoodFrom mill.now None head }
    ensures walk { OnOk result (IsFor mill.now walk.new) }
    ensures trimmed { IfOk result (AreTrimmedFrom mill.now None head) }
{
    let mut before = None;
    let mut points = Vec::new(alloc);
    for point in head.into_points() {
        let sums = point.sums();
        let shorter = trim_point(alloc, walk, mill, before, point)?;
        points.push(shorter)?;
        before = Some(sums);
    }
    Ok(Head::new(points))
}
