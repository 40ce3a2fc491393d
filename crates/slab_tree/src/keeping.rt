//! Whether a cover that was shown for greater limits is one for smaller ones.

ghost use Rattle.std.specs.Prelude.{ℕ, ◌≡◌, ◌≤◌, ◌*◌, ◌^◌, IfSome, IsTrue, length, map, pos, unsigned_abs};
ghost use Rattle.mill_model.specs.Columns.{load, loss_of, size_of as size_of_kind};
ghost use Rattle.mill_model.specs.Shares.{part_of};
ghost use Rattle.slab_relax.specs.PoolCovers.{loss_by};
ghost use Rattle.slab_tree.specs.Keeping.{IsLossWithin};

use mill_model::{Kind, Mill, Share, Shown};

// A cover of so many columns isn't kept: its sums might leave their range.
const MOST_COLUMNS: usize = 8192;

// Whether a cover's loss is within a limit.
pub(crate) fn is_loss_within(mill: &Mill, shown: &Shown, limit: Option<i64>) -> bool
    ensures { IsTrue result → IsLossWithin mill.now limit shown.now }
{
    let Some(limit) = limit else {
        return true;
    };
    match loss_of_shares(mill, shown.shares()) {
        Some(total) => shown.d() >= 0 && total <= i128::from(shown.d()) * i128::from(limit),
        None => false,
    }
}

// The losses of the columns times their multipliers, where the numbers are in range.
fn loss_of_shares(mill: &Mill, shares: &[Share]) -> Option<i128>
    ensures { IfSome result (λ total. total ≡ pos (loss_by mill.now (map part_of shares.now))) }
{
    if shares.len() > MOST_COLUMNS {
        return None;
    }
    let mut total = 0;
    for share in shares {
        total += share_loss(mill, share)?;
    }
    Some(total)
}

fn share_loss(mill: &Mill, share: &Share) -> Option<i128>
    ensures { IfSome result (λ loss. (loss ≡ pos ((part_of share.now).1 * loss_of mill.now (part_of share.now).0)) × (unsigned_abs loss ≤ 2 ^ 80)) }
{
    let times = share.times();
    if times < 0 {
        return None;
    }
    let size = size_of(mill, share.kind())?;
    let load = load_of(mill, share.orders())?;
    Some(i128::from(times) * i128::from(size.saturating_sub(load)))
}

fn size_of(mill: &Mill, kind: Kind) -> Option<u32>
    ensures { IfSome result (λ size. (size ≡ size_of_kind mill.now kind) × (size ≤ 65535)) }
{
    match kind {
        Kind::New(size) => Some(u32::from(size)),
        Kind::Old(s) => mill.yard().get(usize::from(s)).map(|size| u32::from(*size)),
    }
}

fn load_of(mill: &Mill, orders: &[u16]) -> Option<u32>
    ensures { IfSome result (λ sum. sum ≡ load mill.now orders.now) }
{
    if orders.len() > 250 {
        return None;
    }
    let mut sum = 0;
    for order in orders {
        sum += u32::from(mill.orders().get(usize::from(*order))?.weight);
    }
    Some(sum)
}
