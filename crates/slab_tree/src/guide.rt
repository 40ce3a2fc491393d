//! What guides a run: at which loss a node's turn aims, which open question is split on, and when plans are sought. Contracts rest
//! on none of it but that the question is open and that plans are within the limits.

ghost use Rattle.std.specs.Prelude.{◌≡◌, ◌⊎◌, IfOk, IfSome};
ghost use Rattle.mill_model.specs.Limits.{AreSmaller, number_of};
ghost use Rattle.slab_master.specs.Given.{IsSmall};
ghost use Rattle.slab_repack.specs.FoundPlans.{IsFoundPlan};
ghost use Rattle.slab_tree.specs.Asking.{AreThere, IsOpenAskOf};

use crate::bounding::smaller_limits;
use crate::neighbours::Neighbours;
use crate::questions::Questions;
use crate::workplace::Workplace;
use loss_table::LossTable;
use mill_model::{Ask, Limits, Mill, Plan};
use slab_columns::Pool;
use slab_node::Cover;
use std::alloc::{AllocError, Global};

// The number of dives at the first split.
const FIRST_DIVES: u32 = 3;

// So many shares of covers are kept with the splits that one run makes, about 60 bytes each. A later cover is found anew where the
// tree is tightened.
const MOST_SHARES: usize = 4_000_000;

// The guide of a run.
#[derive(Drop)]
pub(crate) struct Guide {
    questions: Questions,
    neighbours: Neighbours,
    // The least loss of the next node that no prices refuted yet, and that of each node above it.
    aim: i64,
    above: Vec<i64>,
    // How many dives were made, and from how many nodes on the next one is due.
    dives: u32,
    next_dive: usize,
    // How many shares of covers were kept.
    shares: usize,
}

impl Guide {
    pub(crate) fn new(alloc: Global, mill: &Mill, table: &LossTable) -> Result<Guide, AllocError> {
        Ok(Guide {
            questions: Questions::new(alloc, mill)?,
            neighbours: Neighbours::new(alloc, mill, table)?,
            aim: 0,
            above: Vec::new(alloc),
            dives: 0,
            next_dive: 0,
            shares: 0,
        })
    }

    // The loss at which the next node's turn aims.
    pub(crate) fn aim(&self) -> i64 {
        self.aim
    }

    // Prices leave no less loss to the next node.
    pub(crate) fn raise(&mut self, aim: i64) {
        self.aim = aim;
    }

    // The question of a cover to split on.
    pub(crate) fn choose(
        &mut self,
        place: &Workplace<'_>,
        pool: &Pool,
        cover: &Cover,
        first: Ask,
    ) -> Result<Ask, AllocError>
        requires { AreThere pool.now.columns cover.now }
        ensures { IfOk result (λ ask. (ask ≡ first) ⊎ IsOpenAskOf place.now.decisions ask) }
    {
        self.questions.choose(place, pool, cover, first)
    }

    // A plan within the limits that is near the best one, sought before the first turn, or none.
    pub(crate) fn begin(
        &mut self,
        alloc: Global,
        mill: &Mill,
        best: Option<&Plan>,
        limits: Limits,
    ) -> Result<Option<Plan>, AllocError>
        ensures found { IfOk result (λ found. IfSome found (IsFoundPlan mill.now limits)) }
    {
        self.neighbours.begin(alloc, mill, best, limits)
    }

    // A plan within the limits that is near a cover of the next node, where so many nodes are decided, or none.
    pub(crate) fn seek(
        &mut self,
        alloc: Global,
        mill: &Mill,
        pool: &Pool,
        cover: &Cover,
        limits: Limits,
        nodes: usize,
    ) -> Result<Option<Plan>, AllocError>
        requires { AreThere pool.now.columns cover.now }
        ensures found { IfOk result (λ found. IfSome found (IsFoundPlan mill.now limits)) }
    {
        let least = self.above.first().copied().unwrap_or(self.aim);
        let enough = u32::try_from(least).unwrap_or(0);
        self.neighbours
            .seek(alloc, mill, pool, cover, limits, enough, nodes)
    }

    // The next node, whose decisions are the path, is split.
    pub(crate) fn go_down(&mut self, path: &[(Ask, bool)]) -> Result<(), AllocError> {
        self.note(path, false);
        self.above.truncate(path.len());
        self.above.push(self.aim)?;
        Ok(())
    }

    // The next node, whose decisions are the path, is closed.
    pub(crate) fn close(&mut self, path: &[(Ask, bool)]) {
        self.note(path, true);
    }

    // A branch for no comes next, whose decisions are the path.
    pub(crate) fn turn_back(&mut self, path: &[(Ask, bool)]) {
        self.above.truncate(path.len());
        self.aim = self.above.last().copied().unwrap_or(0);
    }

    // How many dives are due where so many nodes are decided: some at the first split, and one each time that the nodes have grown
    // by a quarter.
    pub(crate) fn dives_due(&mut self, nodes: usize) -> u32 {
        if nodes < self.next_dive {
            return 0;
        }
        let first = self.next_dive == 0;
        self.next_dive = nodes.saturating_add(64.max(nodes / 4));
        if first { FIRST_DIVES } else { 1 }
    }

    // The limits of a dive: every second one looks for a plan in the lower half of what is left.
    pub(crate) fn dive_limits(&mut self, limits: Limits) -> Limits
        requires { IsSmall (number_of limits.loss) }
        ensures smaller { AreSmaller result limits }
        ensures small { IsSmall (number_of result.loss) }
        ensures count { result.count ≡ limits.count }
    {
        self.dives = self.dives.saturating_add(1);
        let most = limits.loss.unwrap_or(self.aim.saturating_add(10_000));
        if self.dives % 2 == 1 || self.aim >= most {
            return smaller_limits(limits, most);
        }
        smaller_limits(
            limits,
            self.aim.saturating_add(most.saturating_sub(self.aim) / 2),
        )
    }

    // Whether a cover of so many columns may be kept with its split, beside those that were.
    pub(crate) fn keeps(&mut self, columns: usize) -> bool {
        self.shares = self.shares.saturating_add(columns);
        self.shares <= MOST_SHARES
    }

    fn note(&mut self, path: &[(Ask, bool)], closed: bool) {
        if let Some(decision) = path.last() {
            self.questions.note(*decision, closed);
        }
    }
}
