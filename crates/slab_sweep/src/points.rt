//! The points found so far: where the next one goes, and which count limit comes after it.

ghost use Rattle.std.specs.Prelude.{◌≡◌, None, OnOk};
ghost use Rattle.mill_model.specs.Fronts.{last_sums};
ghost use Rattle.mill_model.specs.Limits.{number_of};
ghost use Rattle.slab_master.specs.Given.{IsSmall};
ghost use Rattle.slab_sweep.specs.Openings.{count_after};
ghost use Rattle.slab_sweep.specs.Placing.{placed};

use mill_model::Proved;
use std::alloc::AllocError;

// The count limit of the next question: one less than the count of the last point, and none before the first point.
pub(crate) fn count_limit(points: &[Proved]) -> Option<i64>
    ensures value { result ≡ count_after (last_sums None points.now) }
    ensures small { IsSmall (number_of result) }
{
    match points.last() {
        Some(point) => Some(i64::from(point.sums().count) - 1),
        None => None,
    }
}

// Adds a point, or, where the last one has its loss, puts its sums and its plan in the last one's place, whose tree stays.
pub(crate) fn place(points: &mut Vec<Proved>, point: Proved) -> Result<(), AllocError>
    ensures { OnOk result (points.new.items ≡ placed points.old.items point) }
{
    match points.pop() {
        None => points.push(point)?,
        Some(last) => {
            if last.sums().loss == point.sums().loss {
                points.push_reserved(with_plan_of(last, point));
                return Ok(());
            }
            points.push_reserved(last);
            points.push(point)?;
        }
    }
    Ok(())
}

// The sums and the plan of the second point, with the tree of the first.
fn with_plan_of(last: Proved, point: Proved) -> Proved
    ensures { result ≡ record point { steps = last.steps } }
{
    let (_, _, steps) = last.into_parts();
    let (sums, plan, _) = point.into_parts();
    Proved::new(sums, plan, steps)
}
