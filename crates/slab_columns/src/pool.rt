ghost use Rattle.std.specs.Prelude.{◌≡◌, ◌≢◌, ◌<◌, ◌≤◌, ◌↔◌, ◌++◌, ◌∷◌, [], Contains, IfOk, IfSome, IfNone, IsOk, IsTrue, OnErr, OnOk, Err, Some, length, slice_get};
ghost use Rattle.mill_model.specs.Columns.{IsLegalColumn, column_of, lent_column};
ghost use Rattle.slab_counter.specs.Counter.{next_count};
ghost use Rattle.slab_columns.specs.Index.{key_of};
ghost use Rattle.slab_columns.specs.Recency.{AreBelow};

use crate::flat::{append_column, find_among, lent};
use crate::index::{Index, ids_of, key_of, note};
use crate::mill_copy::copy_of;
use crate::{AddError, Basics, ColId, Column, Fulls, Start};
use indexmap::IndexMap;
use mill_model::{Kind, Mill};
use slab_counter::raised;
use std::alloc::{AllocError, Global};
use std::marker::Model;

// A pool holds at most so many columns.
const MOST_COLUMNS: usize = 8192;

/// Columns that are legal for a mill and distinct, in the order in which they came: at most 8,192. All orders stand in one
/// vector. Beside what contracts see, a pool remembers which of its columns were basic last, and counts the turns of its search.
#[derive(Drop)]
pub struct Pool {
    mill: Mill,
    orders: Vec<u16>,
    starts: Vec<Start>,
    index: Index,
    basics: Basics,
    turns: u64,
}

impl Model for Pool {
    ghost use Rattle.slab_columns.specs.Pool.{Pool};

    ghost Value = { Pool };

    ghost use Rattle.slab_columns.specs.Flat.{columns_of};
    ghost use Rattle.slab_columns.specs.Kept.{IsKept};

    ghost view = { λ p. record { mill = p.mill; columns = columns_of p.orders.items p.starts.items } };

    ghost invariant = { λ p. IsKept p.mill p.orders.items p.starts.items p.index p.basics };
}

#[tactic(auto, using(crate::proofs::FlatColumns::layout_facts))]
impl Pool {
    ghost use Rattle.slab_columns.specs.Pool.{IsPool, HasGrown, most_columns};

    /// An empty pool for a mill, of which it keeps a copy.
    pub fn new(alloc: Global, mill: &Mill) -> Result<Pool, AllocError>
        ensures { IfOk result (λ pool. pool ≡ record { mill = mill.now; columns = [] }) }
    {
        Ok(Pool {
            mill: copy_of(alloc, mill)?,
            orders: Vec::new(alloc),
            starts: Vec::new(alloc),
            index: IndexMap::new(alloc),
            basics: Basics::new(alloc),
            turns: 0,
        })
    }

    /// The number of columns.
    #[inline]
    pub fn len(&self) -> usize
        ensures value { result ≡ length self.now.columns }
        ensures pool { IsPool self.now }
    {
        self.starts.len()
    }

    /// Whether the pool has no column.
    #[inline]
    pub fn is_empty(&self) -> bool
        ensures { IsTrue result ↔ (length self.now.columns ≡ 0) }
    {
        self.starts.is_empty()
    }

    /// Lends a column, without a copy.
    #[inline]
    pub fn column(&self, id: ColId) -> Column<'_>
        requires { id.0 < length self.now.columns }
        ensures value { slice_get self.now.columns id.0 ≡ Some (lent_column result) }
        ensures legal { IsLegalColumn self.now.mill (lent_column result) }
        ensures pool { IsPool self.now }
    {
        lent(&self.orders, &self.starts, id.0 as usize)
    }

    /// The number of a column, unless the pool lacks it.
    pub fn find(&self, kind: Kind, orders: &[u16]) -> Option<ColId>
        ensures found { IfSome result
            (λ id. slice_get self.now.columns id.0 ≡ Some (column_of kind orders.now)) }
        ensures within { IfSome result (λ id. id.0 < length self.now.columns) }
        ensures none { IfNone result (¬ Contains self.now.columns (column_of kind orders.now)) }
    {
        self.find_by_key(key_of(kind, orders), kind, orders)
    }

    // The number of the column that has this key, unless the pool lacks it.
    fn find_by_key(&self, key: u64, kind: Kind, orders: &[u16]) -> Option<ColId>
        requires { key ≡ key_of (column_of kind orders.now) }
        ensures found { IfSome result
            (λ id. slice_get self.now.columns id.0 ≡ Some (column_of kind orders.now)) }
        ensures within { IfSome result (λ id. id.0 < length self.now.columns) }
        ensures none { IfNone result (¬ Contains self.now.columns (column_of kind orders.now)) }
    {
        let ids = ids_of(&self.index, key);
        match find_among(&self.orders, &self.starts, ids, kind, orders) {
            Some(id) => Some(ColId(id)),
            None => None,
        }
    }

    /// The number of a legal column, which is appended if the pool lacks it. A column that is there takes no memory. `Full`
    /// comes exactly where the pool holds 8,192 columns and lacks this one, and is counted; `Memory` may come for any
    /// other that it lacks. After an error the pool is as before.
    pub fn add(
        &mut self,
        alloc: Global,
        kind: Kind,
        orders: &[u16],
        fulls: &mut Fulls,
    ) -> Result<ColId, AddError>
        requires { IsLegalColumn self.old.mill (column_of kind orders.now) }
        ensures ok { IfOk result
            (λ id. slice_get self.new.columns id.0 ≡ Some (column_of kind orders.now)) }
        ensures within { IfOk result (λ id. id.0 < length self.new.columns) }
        ensures err { OnErr result (self.new ≡ self.old) }
        ensures grown { HasGrown self.old self.new }

        // A column that is there changes nothing, and any other is appended.
        ensures known { Contains self.old.columns (column_of kind orders.now) → IsOk result }
        ensures unchanged { Contains self.old.columns (column_of kind orders.now)
            → self.new ≡ self.old }
        ensures appended { ¬ Contains self.old.columns (column_of kind orders.now)
            → OnOk result (self.new
            ≡ record self.old { columns = self.old.columns ++ column_of kind orders.now ∷ [] }) }
        ensures last { ¬ Contains self.old.columns (column_of kind orders.now)
            → IfOk result (λ id. id.0 ≡ length self.old.columns) }

        // A stranger at a full pool, and nothing else, is refused as such and counted.
        ensures full { (result ≡ Err AddError.Full)
            ↔ ((length self.old.columns ≡ most_columns)
            × ¬ Contains self.old.columns (column_of kind orders.now)) }
        ensures counted { result ≡ Err AddError.Full → fulls.new ≡ next_count fulls.old }
        ensures uncounted { result ≢ Err AddError.Full → fulls.new ≡ fulls.old }
        ensures never_falls { fulls.old ≤ fulls.new }
    {
        let key = key_of(kind, orders);
        if let Some(id) = self.find_by_key(key, kind, orders) {
            return Ok(id);
        }
        let id = self.starts.len();
        if id == MOST_COLUMNS {
            fulls.raise();
            return Err(AddError::Full);
        }
        self.orders.reserve(orders.len())?;
        self.starts.reserve(1)?;
        self.basics.reserve()?;
        note(alloc, &mut self.index, key, id as u16)?;
        append_column(&mut self.orders, &mut self.starts, kind, orders);
        Ok(ColId(id as u16))
    }

    /// Empties the pool. It stays one for the same mill, and its count of turns stays.
    pub fn restart(&mut self)
        ensures { self.new ≡ record self.old { columns = [] } }
    {
        self.orders.clear();
        self.starts.clear();
        self.index.clear();
        self.basics.clear();
    }

    /// Remembers that these columns were basic, the first of them last. It takes no memory.
    pub fn note_basic(&mut self, ids: &[ColId])
        requires { AreBelow (length self.old.columns) ids.now }
        ensures { self.new ≡ self.old }
    {
        self.basics.note(ids);
    }

    /// Counts one more turn of the search that the pool serves. The count stands still at 2^64 - 1.
    pub fn count_turn(&mut self)
        ensures { self.new ≡ self.old }
    {
        self.turns = raised(self.turns);
    }

    /// How many turns were counted.
    pub fn turns(&self) -> u64 {
        self.turns
    }

    /// The columns that were basic, the latest first.
    #[inline]
    pub fn recent(&self) -> &[ColId]
        ensures below { AreBelow (length self.now.columns) result.now }
        ensures pool { IsPool self.now }
    {
        self.basics.ids()
    }
}
