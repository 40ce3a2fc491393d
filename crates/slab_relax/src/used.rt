//! The columns that the master uses, as a cover.
ghost use Rattle.std.specs.Prelude.{◌≡◌, IfOk, length};
ghost use Rattle.slab_master.specs.Spread.{IsSpread};
ghost use Rattle.slab_relax.specs.AtNodes.{IsCoverAt};
ghost use Rattle.slab_relax.specs.Masters.{used_of, IsRestricted};

use crate::restricted::Restricted;
use crate::{Cover, Node};
use slab_columns::Pool;
use slab_frac::Frac;
use std::alloc::{AllocError, Global};

impl Restricted {
    // The columns with a multiplier above 0, of one multiplier per column.
    fn used(&self, alloc: Global, multipliers: &[Frac]) -> Result<Cover, AllocError>
        requires { length multipliers.now ≡ length self.now.ids.items }
        ensures { IfOk result (λ cover. cover ≡ used_of self.now.ids.items multipliers.now) }
    {
        let mut list = Vec::new(alloc);
        for (i, multiplier) in multipliers.iter().enumerate() {
            if multiplier.num() > 0 {
                list.push((self.ids[i], *multiplier))?;
            }
        }
        Ok(Cover::new(list))
    }

    // The cover of one multiplier per column, where these meet every row.
    pub(crate) fn cover(
        &self,
        alloc: Global,
        node: &Node<'_>,
        pool: &Pool,
        multipliers: &[Frac],
    ) -> Result<Cover, AllocError>
        requires mill { pool.now.mill ≡ node.now.mill.now }
        requires restricted { IsRestricted node.now pool.now.columns self.now }
        requires spread { IsSpread self.now.master.rows self.now.master.columns multipliers.now }
        ensures value { IfOk result (λ cover. cover ≡ used_of self.now.ids.items multipliers.now) }
        ensures covers { IfOk result (IsCoverAt node.now pool.now.columns) }
    {
        // It tells that a pool's columns are legal.
        let _legal = pool.len();
        self.used(alloc, multipliers)
    }
}
