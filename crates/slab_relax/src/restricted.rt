//! The restricted master of a node.
ghost use Rattle.std.specs.Prelude.{◌≡◌, ◌++◌, ◌∷◌, [], IfOk, OnOk};
ghost use Rattle.mill_model.specs.Columns.{IsLegalColumn, column_of};
ghost use Rattle.slab_relax.specs.Rows.{rows_of, entries_of};

use crate::Node;
use crate::entries::put_entries;
use crate::rows::rows_of;
use mill_model::Kind;
use slab_columns::{ColId, Pool};
use slab_master::Master;
use std::alloc::{AllocError, Global};

/// A master over the columns of a pool that agree with the decisions, each known by its number, in order.
#[derive(Drop)]
pub(crate) struct Restricted {
    pub master: Master,
    pub ids: Vec<ColId>,
    // Room for the entries of one column.
    pub entries: Vec<(u16, i64)>,
}

impl Restricted {
    ghost use Rattle.slab_relax.specs.Masters.{IsRestricted, with_column};

    // The master over the pool as it stands.
    pub(crate) fn new(alloc: Global, node: &Node<'_>, pool: &Pool) -> Result<Restricted, AllocError>
        requires { pool.now.mill ≡ node.now.mill.now }
        ensures { IfOk result (IsRestricted node.now pool.now.columns) }
    {
        let rows = rows_of(alloc, node.mill, node.limits)?;
        let mut restricted = Restricted {
            master: Master::new(alloc, &rows)?,
            ids: Vec::new(alloc),
            entries: Vec::new(alloc),
        };
        for i in 0..pool.len() {
            let id = ColId(i as u16);
            let column = pool.column(id);
            if node.decisions.allows(column.kind, column.orders) {
                restricted.put(alloc, node, id, column.kind, column.orders)?;
            }
        }
        Ok(restricted)
    }

    // Takes one column more.
    pub(crate) fn put(
        &mut self,
        alloc: Global,
        node: &Node<'_>,
        id: ColId,
        kind: Kind,
        orders: &[u16],
    ) -> Result<(), AllocError>
        requires rows { self.old.master.rows ≡ rows_of node.now.mill.now node.now.limits }
        requires legal { IsLegalColumn node.now.mill.now (column_of kind orders.now) }
        ensures master { OnOk result (self.new.master ≡ with_column self.old.master
            (entries_of node.now.mill.now node.now.limits (column_of kind orders.now))) }
        ensures ids { OnOk result (self.new.ids.items ≡ self.old.ids.items ++ id ∷ []) }
    {
        put_entries(node.mill, node.limits, kind, orders, &mut self.entries)?;
        self.master.add_column(alloc, &self.entries)?;
        self.ids.push(id)?;
        Ok(())
    }
}
