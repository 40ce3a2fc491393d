//! A cover with whole multipliers, and how much of it answers each question by yes.
ghost use Rattle.std.specs.Prelude.{◌≡◌, ℕ, ◌+◌, ◌*◌, ◌^◌, ◌<◌, ◌≤◌, cond, IfOk, IfSome, IfNone, length, slice_index, unsigned_abs};
ghost use Rattle.mill_model.specs.declared.ask.Ask.{Ask};
ghost use Rattle.mill_model.specs.Columns.{Rises, has};
ghost use Rattle.slab_relax.specs.PoolCovers.{parts_of};
ghost use Rattle.slab_node.specs.Shares.{AreTimes, CoversOrders};

use mill_model::{Ask, Kind};
use slab_columns::{ColId, Pool};
use slab_frac::Frac;
use slab_relax::Node;
use std::alloc::{AllocError, Global};

/// Columns of a pool with whole multipliers, which sum to `whole` at each order.
#[derive(Clone, Copy)]
pub(crate) struct Wholes<'a> {
    pub node: Node<'a>,
    pub pool: &'a Pool,
    pub cover: &'a [(ColId, Frac)],
    pub times: &'a [i64],
    pub whole: u64,
    pub ghost belongs: { pool.now.mill ≡ node.mill.now },
    pub ghost numbers: { AreTimes pool.now.columns cover.now times.now },
    pub ghost covers: { CoversOrders node.mill.now whole
        (parts_of pool.now.columns cover.now times.now) },
}

// Adds so much at each of some rising places.
fn add_at(sums: &mut [u128], places: &[u16], amount: u128)
    requires rises { Rises 0 (length sums.old) places.now }
    requires room { (j : ℕ) → j < length sums.old → slice_index sums.old j + amount < 2 ^ 128 }
    ensures { (j : ℕ) → j < length sums.old
        → slice_index sums.new j ≡ slice_index sums.old j + cond (has places.now j) amount 0 }
{
    for place in places {
        sums[*place as usize] += amount;
    }
}

// The first sum from a place on that is above 0 and below the whole.
fn first_partial(sums: &[u128], from: usize, whole: u128) -> Option<usize>
    ensures some { IfSome result (λ j. (from ≤ j) × (j < length sums.now)
        × (0 < slice_index sums.now j) × (slice_index sums.now j < whole)) }
    ensures first { IfSome result (λ j. (k : ℕ) → from ≤ k → k < j
        → 0 < slice_index sums.now k → slice_index sums.now k < whole → ⊥) }
    ensures none { IfNone result ((j : ℕ) → from ≤ j → j < length sums.now
        → 0 < slice_index sums.now j → slice_index sums.now j < whole → ⊥) }
{
    for j in from..sums.len() {
        if 0 < sums[j] && sums[j] < whole {
            return Some(j);
        }
    }
    None
}

impl Wholes<'_> {
    ghost use Rattle.slab_node.specs.OfWholes.{share_in, IsPartialIn, HasNoneBefore, HasNoPutBefore, HasWholePairs, HasWholePuts, IsWholeIn};

    // For each order, how much of the cover has it together with this one.
    fn pair_shares(&self, order: u16, shares: &mut [u128])
        requires { length shares.old ≡ length self.now.node.mill.now.orders }
        ensures size { length shares.new ≡ length shares.old }
        ensures shares { (j : ℕ) → j < length shares.old
            → slice_index shares.new j ≡ share_in self.now (Ask.Pair order j) }
    {
        shares.fill(0);
        for (p, part) in self.cover.iter().enumerate() {
            let column = self.pool.column(part.0);
            if column.orders.contains(&order) {
                add_at(
                    shares,
                    column.orders,
                    u128::from(self.times[p].unsigned_abs()),
                );
            }
        }
    }

    // For each surplus slab, how much of the cover has this order on it.
    fn put_shares(&self, order: u16, shares: &mut [u128])
        requires { length shares.old ≡ length self.now.node.mill.now.yard }
        ensures size { length shares.new ≡ length shares.old }
        ensures shares { (s : ℕ) → s < length shares.old
            → slice_index shares.new s ≡ share_in self.now (Ask.Put order s) }
    {
        shares.fill(0);
        for (p, part) in self.cover.iter().enumerate() {
            let column = self.pool.column(part.0);
            let slab = match column.kind {
                Kind::Old(slab) => slab,
                Kind::New(_size) => continue,
            };
            if column.orders.contains(&order) {
                shares[slab as usize] += u128::from(self.times[p].unsigned_abs());
            }
        }
    }

    // The first pair that the cover answers in part.
    fn partial_pair(&self, alloc: Global) -> Result<Option<Ask>, AllocError>
        ensures some { IfOk result (λ found. IfSome found (IsPartialIn self.now)) }
        ensures first { IfOk result (λ found. IfSome found (HasNoneBefore self.now)) }
        ensures none { IfOk result (λ found. IfNone found (HasWholePairs self.now)) }
    {
        let count = self.node.mill.orders().len();
        let mut shares = vec![in alloc; 0; count]?;
        for i in 0..count {
            self.pair_shares(i as u16, &mut shares);
            if let Some(j) = first_partial(&shares, i + 1, u128::from(self.whole)) {
                return Ok(Some(Ask::Pair(i as u16, j as u16)));
            }
        }
        Ok(None)
    }

    // The first put that it answers in part.
    fn partial_put(&self, alloc: Global) -> Result<Option<Ask>, AllocError>
        ensures some { IfOk result (λ found. IfSome found (IsPartialIn self.now)) }
        ensures first { IfOk result (λ found. IfSome found (HasNoPutBefore self.now)) }
        ensures none { IfOk result (λ found. IfNone found (HasWholePuts self.now)) }
    {
        let count = self.node.mill.yard().len();
        let mut shares = vec![in alloc; 0; count]?;
        for order in 0..self.node.mill.orders().len() {
            self.put_shares(order as u16, &mut shares);
            if let Some(slab) = first_partial(&shares, 0, u128::from(self.whole)) {
                return Ok(Some(Ask::Put(order as u16, slab as u16)));
            }
        }
        Ok(None)
    }

    // The first question that the cover answers in part, if any: pairs come before puts.
    pub(crate) fn partial_ask(&self, alloc: Global) -> Result<Option<Ask>, AllocError>
        ensures some { IfOk result (λ found. IfSome found (IsPartialIn self.now)) }
        ensures first { IfOk result (λ found. IfSome found (HasNoneBefore self.now)) }
        ensures none { IfOk result (λ found. IfNone found (IsWholeIn self.now)) }
    {
        match self.partial_pair(alloc)? {
            Some(ask) => Ok(Some(ask)),
            None => self.partial_put(alloc),
        }
    }
}
