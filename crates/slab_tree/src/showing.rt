//! A cover by columns of the pool, as a mark shows it.

ghost use Rattle.std.specs.Prelude.{◌≡◌, ◌<◌, ◌≤◌, ◌++◌, List, IfOk, OnOk, true, false, length};
ghost use Rattle.mill_model.specs.declared.limits.Limits.{Limits};
ghost use Rattle.mill_model.specs.Decisions.{Decision};
ghost use Rattle.mill_model.specs.Mill.{Mill};
ghost use Rattle.slab_counter.specs.Counter.{Rose};
ghost use Rattle.slab_frac.specs.Scaled.{AreInRange};
ghost use Rattle.slab_relax.specs.PoolCovers.{IsPoolCover, column_at, multipliers as multipliers_in};
ghost use Rattle.slab_relax.specs.Tallies.{AreNoLess, HasCause};
ghost use Rattle.slab_tree.specs.Asking.{AreThere};
ghost use Rattle.slab_tree.specs.Marking.{HoldsCover, ShowsCoverUnlessBare, is_bare};
ghost use Rattle.slab_tree.specs.Showing.{share_of, shares_of};

use mill_model::{Mark, Share, Shown};
use slab_columns::{ColId, Pool};
use slab_frac::{Frac, Wides, scale_all};
use slab_node::{Cover, Tally};
use std::alloc::{AllocError, Global};

// Whether a mark is the bare one.
pub(crate) fn is_bare(mark: &Mark) -> bool
    ensures { result ≡ is_bare mark.now }
{
    matches!(mark, Mark::Bare)
}

// The cover over its least common denominator as a mark, or the bare mark where that is out of range, which is counted.
pub(crate) fn mark_of(
    alloc: Global,
    pool: &Pool,
    cover: &Cover,
    tally: &mut Tally,
) -> Result<Mark, AllocError>
    requires { AreThere pool.now.columns cover.now }
    ensures shows { (m : Mill) (limits : Limits) (decisions : List Decision) → IsPoolCover m limits decisions pool.now.columns cover.now → IfOk result (λ mark. ShowsCoverUnlessBare m limits mark decisions) }
    ensures cause { IfOk result (λ mark. is_bare mark ≡ true → HasCause tally.old tally.new) }
    ensures counters { AreNoLess tally.old tally.new }
{
    let parts = cover.list();
    let multipliers = multipliers_of(alloc, parts)?;
    let mut times = vec![in alloc; 0i64; parts.len()]?;
    mark_over(
        alloc,
        pool,
        parts,
        &multipliers,
        &mut times,
        &mut tally.wides,
    )
}

// The cover as a mark, or the plain mark where it can't be shown or isn't to be kept.
pub(crate) fn shown_or_plain(
    alloc: Global,
    pool: &Pool,
    cover: &Cover,
    keeps: bool,
    tally: &mut Tally,
) -> Result<Mark, AllocError>
    requires { AreThere pool.now.columns cover.now }
    ensures holds { (m : Mill) (limits : Limits) (decisions : List Decision) → IsPoolCover m limits decisions pool.now.columns cover.now → IfOk result (λ mark. HoldsCover m limits mark decisions) }
    ensures covered { IfOk result (λ mark. is_bare mark ≡ false) }
    ensures counters { AreNoLess tally.old tally.new }
{
    if !keeps {
        return Ok(Mark::Plain);
    }
    match mark_of(alloc, pool, cover, tally)? {
        Mark::Spread(shown) => Ok(Mark::Spread(shown)),
        Mark::Bare | Mark::Plain => Ok(Mark::Plain),
    }
}

// The mark of these columns and multipliers, with room for their whole numbers.
fn mark_over(
    alloc: Global,
    pool: &Pool,
    parts: &[(ColId, Frac)],
    multipliers: &[Frac],
    times: &mut [i64],
    wides: &mut Wides,
) -> Result<Mark, AllocError>
    requires within { AreThere pool.now.columns parts.now }
    requires same { multipliers.now ≡ multipliers_in parts.now }
    requires each { length times.old ≡ length parts.now }
    ensures shows { (m : Mill) (limits : Limits) (decisions : List Decision) → IsPoolCover m limits decisions pool.now.columns parts.now → IfOk result (λ mark. ShowsCoverUnlessBare m limits mark decisions) }
    ensures cause { IfOk result (λ mark. is_bare mark ≡ true → Rose wides.old wides.new) }
    ensures counter { wides.old ≤ wides.new }
{
    match scale_all(multipliers, wides, times) {
        Some(denominator) => {
            let shares = shares_of(alloc, pool, parts, times)?;
            Ok(Mark::Spread(Shown::new(denominator, shares)))
        }
        None => Ok(Mark::Bare),
    }
}

fn multipliers_of(alloc: Global, parts: &[(ColId, Frac)]) -> Result<Vec<Frac>, AllocError>
    ensures { IfOk result (λ list. list.items ≡ multipliers_in parts.now) }
{
    parts.iter().map(|part| part.1).collect(alloc)
}

// The columns with their multipliers, as far as these are above 0.
fn shares_of(
    alloc: Global,
    pool: &Pool,
    parts: &[(ColId, Frac)],
    times: &[i64],
) -> Result<Vec<Share>, AllocError>
    requires within { AreThere pool.now.columns parts.now }
    requires each { length parts.now ≡ length times.now }
    requires range { AreInRange times.now }
    ensures { IfOk result (λ shares. shares.items ≡ shares_of pool.now.columns parts.now times.now) }
{
    let mut shares = Vec::new(alloc);
    for (index, part) in parts.iter().enumerate() {
        add_share(alloc, &mut shares, pool, part.0, times[index])?;
    }
    Ok(shares)
}

fn add_share(
    alloc: Global,
    shares: &mut Vec<Share>,
    pool: &Pool,
    id: ColId,
    times: i64,
) -> Result<(), AllocError>
    requires { id.0 < length pool.now.columns }
    ensures { OnOk result (shares.new.items ≡ shares.old.items ++ share_of (column_at pool.now.columns id) times) }
{
    if times > 0 {
        let column = pool.column(id);
        let orders = column.orders.to_vec(alloc)?;
        shares.push(Share::new(times, column.kind, orders))?;
    }
    Ok(())
}
