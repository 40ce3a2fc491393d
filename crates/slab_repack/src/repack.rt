//! The search.

ghost use Rattle.std.specs.Prelude.{◌≡◌, IfOk, IfSome};
ghost use Rattle.slab_repack.specs.FoundPlans.{IsFoundPlan};

use crate::facts::Facts;
use crate::judging::judged;
use crate::layout::Layout;
use crate::packing::Packing;
use crate::random::Random;
use crate::release::Release;
use crate::size_sums::SizeSums;
use loss_table::LossTable;
use mill_model::{Kind, Limits, Mill, Plan};
use std::alloc::{AllocError, Global};

mod renewal;

/// A search for plans by large neighbourhoods: it releases a few slabs of a plan and packs their orders anew, as well as it can.
/// Its numbers are drawn from a constant seed and it counts its steps, so a run is a function of the calls.
#[derive(Drop)]
pub struct Repack {
    facts: Facts,
    size_sums: SizeSums,
    layout: Layout,
    best: Layout,
    release: Release,
    packing: Packing,
    random: Random,
    steps: u64,
}

// What a search is after.
#[derive(Clone, Copy, Drop)]
struct Aim {
    // At most so many new slabs, and so much loss.
    count: usize,
    loss: u64,
    // So little loss is enough: with that, fewer new slabs are sought.
    enough: u64,
    // Sums of sizes allow no better plan.
    is_over: bool,
}

impl Repack {
    /// A search on a mill that has no plan to start from. It takes all its memory here, but for the plans that it answers. Its
    /// only error is want of memory.
    pub fn new(alloc: Global, mill: &Mill, table: &LossTable) -> Result<Repack, AllocError> {
        let orders = mill.orders().len();
        let facts = Facts::new(alloc, mill, table)?;
        let size_sums = SizeSums::new(alloc, mill, facts.room)?;
        Ok(Repack {
            facts,
            size_sums,
            layout: Layout::new(alloc, orders)?,
            best: Layout::new(alloc, orders)?,
            release: Release::new(alloc)?,
            packing: Packing::new(alloc)?,
            random: Random::new(),
            steps: 0,
        })
    }

    /// How many steps were done so far.
    pub fn steps(&self) -> u64 {
        self.steps
    }

    /// Starts from a plan, which may have more new slabs than a later limit. One that isn't legal does no harm.
    pub fn seed(&mut self, plan: &Plan) {
        self.layout.load(&self.facts, plan);
    }

    /// Starts from no plan: all orders lie nowhere. What a search finds lying nowhere it places where it costs least.
    pub fn clear(&mut self) {
        self.layout.clear();
    }

    /// Takes a column into the start, where its orders still lie nowhere and its surplus slab is free. It answers whether it did.
    /// So the columns of a cover, the largest first, round it to a plan.
    pub fn take(&mut self, kind: Kind, orders: &[u16]) -> bool {
        self.layout.take(&self.facts, kind, orders)
    }

    /// The start, completed to a plan: each order that lies nowhere is placed where it costs least. It answers the plan, legal and in
    /// order, where it is within the limits, or none. A search then goes on from there. Its only error is want of memory.
    pub fn completed(
        &mut self,
        alloc: Global,
        mill: &Mill,
        limits: Limits,
    ) -> Result<Option<Plan>, AllocError>
        ensures found { IfOk result (λ found. IfSome found (IsFoundPlan mill.now limits)) }
    {
        if !self.layout.complete(&self.facts) {
            return Ok(None);
        }
        let plan = self.layout.plan(alloc, &self.facts)?;
        Ok(judged(mill, plan, limits))
    }

    /// Searches from where it stands for so many steps, or until sums of sizes allow no better plan. It answers the plan of least
    /// loss that it found within the limits, legal and in order, or none. Once the loss is no more than `enough`, or the least that
    /// sums of sizes allow, it looks for fewer new slabs. Its only error is want of memory.
    pub fn search(
        &mut self,
        alloc: Global,
        mill: &Mill,
        limits: Limits,
        enough: u32,
        work: u64,
    ) -> Result<Option<Plan>, AllocError>
        ensures found { IfOk result (λ found. IfSome found (IsFoundPlan mill.now limits)) }
    {
        let Some(aim) = self.aim(limits, enough) else {
            return Ok(None);
        };
        if !self.layout.complete(&self.facts) {
            return Ok(None);
        }
        self.layout.sum_up(&self.facts);
        if !self.improve(aim, work) {
            return Ok(None);
        }
        let plan = self.best.plan(alloc, &self.facts)?;
        Ok(judged(mill, plan, limits))
    }

    // What a search is after, unless no plan is within the limits.
    fn aim(&self, limits: Limits, enough: u32) -> Option<Aim> {
        let count = most_of(limits.count)?.min(u64::from(u32::MAX)) as usize;
        let loss = most_of(limits.loss)?;
        let least = self.size_sums.least_loss(count)?;
        if least > loss {
            return None;
        }
        Some(Aim {
            count,
            loss,
            enough: u64::from(enough).max(least),
            is_over: false,
        })
    }

    // Renews parts of the layout for so many steps. It answers whether there is a best plan.
    fn improve(&mut self, aim: Aim, work: u64) -> bool {
        let mut aim = aim;
        let mut found = self.note(&mut aim);
        let mut done: u64 = 0;
        for _ in 0..work {
            if done >= work || aim.is_over {
                break;
            }
            done = done.saturating_add(self.renew(aim.count, work.saturating_sub(done)));
            found |= self.note(&mut aim);
        }
        self.steps = self.steps.saturating_add(done);
        found
    }

    // Keeps the layout as the best plan, where it is within the limits, and asks for a better one from then on: for less loss, or
    // for fewer new slabs where the loss is little enough.
    fn note(&mut self, aim: &mut Aim) -> bool {
        if self.layout.news > aim.count || self.layout.loss > aim.loss {
            return false;
        }
        self.best.copy_from(&self.layout);
        if self.layout.loss > aim.enough {
            aim.loss = self.layout.loss.saturating_sub(1);
        } else {
            aim.loss = self.layout.loss;
            aim.is_over = self.layout.news == 0;
            aim.count = self.layout.news.saturating_sub(1);
        }
        aim.is_over |= !self.is_allowed(aim.count, aim.loss);
        true
    }

    // Whether sums of sizes allow so few new slabs with so little loss.
    fn is_allowed(&self, count: usize, loss: u64) -> bool {
        self.size_sums
            .least_loss(count)
            .is_some_and(|least| least <= loss)
    }
}

// A limit as a number, unless it is below 0.
fn most_of(limit: Option<i64>) -> Option<u64> {
    match limit {
        Some(limit) => u64::try_from(limit).ok(),
        None => Some(u64::MAX),
    }
}
