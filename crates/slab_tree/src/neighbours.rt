//! Plans near others: the best plan, or a cover that is rounded to one, is renewed part by part.

ghost use Rattle.std.specs.Prelude.{IfOk, IfSome};
ghost use Rattle.slab_repack.specs.FoundPlans.{IsFoundPlan};
ghost use Rattle.slab_tree.specs.Asking.{AreThere};

use crate::shares::ranked;
use loss_table::LossTable;
use mill_model::{Limits, Mill, Plan};
use slab_columns::Pool;
use slab_node::Cover;
use slab_repack::Repack;
use std::alloc::{AllocError, Global};

// So many steps are done before the first turn of a run.
const EARLY_STEPS: u64 = 125_000;

// So many more may be done at the root of a tree.
const FIRST_STEPS: u64 = 500_000;

// So many more may be done for each node of a tree.
const NODE_STEPS: u64 = 5_000;

// No search is begun for fewer steps.
const LEAST_STEPS: u64 = 20_000;

// A search takes at most so many steps.
const MOST_STEPS: u64 = 250_000;

// A search for plans beside a tree, scheduled by its steps.
#[derive(Drop)]
pub(crate) struct Neighbours {
    repack: Repack,
}

impl Neighbours {
    pub(crate) fn new(
        alloc: Global,
        mill: &Mill,
        table: &LossTable,
    ) -> Result<Neighbours, AllocError> {
        Ok(Neighbours {
            repack: Repack::new(alloc, mill, table)?,
        })
    }

    // A plan within the limits that is near the best one, sought before the first turn, or none.
    pub(crate) fn begin(
        &mut self,
        alloc: Global,
        mill: &Mill,
        best: Option<&Plan>,
        limits: Limits,
    ) -> Result<Option<Plan>, AllocError>
        ensures { IfOk result (λ found. IfSome found (IsFoundPlan mill.now limits)) }
    {
        match best {
            Some(plan) => self.repack.seed(plan),
            None => self.repack.clear(),
        }
        self.repack.search(alloc, mill, limits, 0, EARLY_STEPS)
    }

    // A plan within the limits, from a cover of a tree with so many nodes, or none: the cover rounded to a plan, or one near that,
    // where a search is due. So little loss is enough.
    pub(crate) fn seek(
        &mut self,
        alloc: Global,
        mill: &Mill,
        pool: &Pool,
        cover: &Cover,
        limits: Limits,
        enough: u32,
        nodes: usize,
    ) -> Result<Option<Plan>, AllocError>
        requires { AreThere pool.now.columns cover.now }
        ensures { IfOk result (λ found. IfSome found (IsFoundPlan mill.now limits)) }
    {
        self.take(alloc, pool, cover)?;
        if let Some(plan) = self.repack.completed(alloc, mill, limits)? {
            return Ok(Some(plan));
        }
        let work = self.work_due(nodes);
        if work < LEAST_STEPS {
            return Ok(None);
        }
        self.repack.search(alloc, mill, limits, enough, work)
    }

    // Starts from the largest columns of a cover, as far as they are disjoint.
    fn take(&mut self, alloc: Global, pool: &Pool, cover: &Cover) -> Result<(), AllocError> {
        self.repack.clear();
        for (_, id) in ranked(alloc, cover)? {
            if usize::from(id.0) < pool.len() {
                let column = pool.column(id);
                let _ = self.repack.take(column.kind, column.orders);
            }
        }
        Ok(())
    }

    // How many steps a search may take now.
    fn work_due(&self, nodes: usize) -> u64 {
        EARLY_STEPS
            .saturating_add(FIRST_STEPS)
            .saturating_add(NODE_STEPS.saturating_mul(nodes as u64))
            .saturating_sub(self.repack.steps())
            .min(MOST_STEPS)
    }
}
