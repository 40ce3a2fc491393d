//! Rounds.

ghost use Rattle.std.specs.Prelude.{◌≡◌, ◌<◌, ◌≤◌, [], length, Some, IfOk, OnOk};
ghost use Rattle.std.specs.Bool.{then_some};
ghost use Rattle.mill_model.specs.Mill.{most_orders, IsInLimits};
ghost use Rattle.mill_model.specs.Starts.{IsStart};
ghost use Rattle.mill_model.specs.Plans.{slab as slab_of_plan, IsLegal, sums_of};
ghost use Rattle.slab_filling.specs.Closing.{plan_of_filled, closed_slabs};
ghost use Rattle.slab_lns.specs.Neighbourhoods.{slabs_of, kept, released};
ghost use Rattle.slab_lns.specs.Options.{place_all};
ghost use Rattle.slab_lns.specs.Rounds.{round as round_after, after_rounds, no_worse_plan};
ghost use Rattle.slab_lns.specs.Searches.{plan_at, round_at, IsSound};

use crate::placing::Placing;
use crate::release::{keep, release};
use crate::shelf::Shelf;
use crate::sizes::{closed_sums, is_no_worse};
use loss_table::LossTable;
use mill_model::{MOST_ORDERS, Mill, Plan, Sums};
use slab_filling::{Slab, close_onto, kinds_of, places_of};
use std::alloc::{AllocError, Global};

// A plan as its slabs, and what rounds on it use.
#[derive(Drop)]
pub(crate) struct Search {
    // At most so many new slabs.
    limit: Option<i64>,
    table: LossTable,
    // The slabs of the plan, and its sums.
    slabs: Vec<Slab>,
    sums: Sums,
    // The slabs of the plan that a round makes.
    made: Vec<Slab>,
    // The orders that a round releases.
    released: Vec<u16>,
    placing: Placing,
}

impl Search {
    // A search on this plan, whose numbers are those of the seed.
    pub(crate) fn new(
        alloc: Global,
        mill: &Mill,
        limit: Option<i64>,
        plan: &Plan,
        seed: u32,
    ) -> Result<Search, AllocError>
        requires { IsStart mill.now limit plan.now }
        ensures at { IfOk result (λ s.
            round_at mill.now s ≡ record { plan = plan.now; last = seed }) }
        ensures limit { IfOk result (λ s. s.limit ≡ limit) }
        ensures sound { IfOk result (IsSound mill.now) }
    {
        let count = mill.orders().len();
        prove!(count <= MOST_ORDERS as usize);
        let table = LossTable::new(alloc, mill)?;
        let mut shelf = Shelf::new(alloc, 2 * count, count)?;
        let slabs = slabs_of_plan(alloc, &mut shelf, plan)?;
        let sums = sums_of_start(mill, plan);
        Ok(Search {
            limit,
            table,
            slabs,
            sums,
            made: Vec::with_capacity(alloc, count)?,
            released: Vec::with_capacity(alloc, count)?,
            placing: Placing::new(alloc, shelf, count, seed)?,
        })
    }

    // So many rounds.
    pub(crate) fn run(&mut self, alloc: Global, mill: &Mill, rounds: u32) -> Result<(), AllocError>
        requires { IsSound mill.now self.old }
        ensures at { OnOk result (round_at mill.now self.new
            ≡ after_rounds mill.now self.old.limit rounds (round_at mill.now self.old)) }
        ensures limit { OnOk result (self.new.limit ≡ self.old.limit) }
        ensures sound { OnOk result (IsSound mill.now self.new) }
    {
        for _done in 0..rounds {
            self.round(alloc, mill)?;
        }
        Ok(())
    }

    // The orders of two slabs that are drawn are placed anew.
    fn round(&mut self, alloc: Global, mill: &Mill) -> Result<(), AllocError>
        requires { IsSound mill.now self.old }
        ensures at { OnOk result (round_at mill.now self.new
            ≡ round_after mill.now self.old.limit (round_at mill.now self.old)) }
        ensures limit { OnOk result (self.new.limit ≡ self.old.limit) }
        ensures sound { OnOk result (IsSound mill.now self.new) }
    {
        let count = self.slabs.len();
        if count == 0 {
            return Ok(());
        }
        let first = self.placing.draws.among(count);
        let second = self.placing.draws.among(count);
        if self.place_anew(alloc, mill, (first, second))? {
            self.take_if_no_worse(mill)?;
        }
        Ok(())
    }

    // Makes slabs on which the orders of these two are placed anew. It answers whether each had a way.
    fn place_anew(
        &mut self,
        alloc: Global,
        mill: &Mill,
        pair: (usize, usize),
    ) -> Result<bool, AllocError>
        requires first { pair.0 < length self.old.slabs.items }
        requires second { pair.1 < length self.old.slabs.items }
        ensures placed { IfOk result (λ placed.
            place_all mill.now self.old.limit
            (released mill.now pair.0 pair.1 self.old.slabs.items)
            (kept mill.now pair.0 pair.1 self.old.slabs.items)
            self.old.placing.draws.last
            ≡ record { found = then_some placed self.new.made.items; last = self.new.placing.draws.last }) }
        ensures slabs { OnOk result (self.new.slabs ≡ self.old.slabs) }
        ensures sums { OnOk result (self.new.sums ≡ self.old.sums) }
        ensures limit { OnOk result (self.new.limit ≡ self.old.limit) }
        ensures table { OnOk result (self.new.table ≡ self.old.table) }
        ensures mill { IsInLimits mill.now }
    {
        release(mill, &self.slabs, pair, &mut self.released)?;
        self.placing.shelf.take_back(&mut self.made)?;
        keep(
            alloc,
            mill,
            &mut self.placing.shelf,
            &self.slabs,
            pair,
            &mut self.made,
        )?;
        self.placing
            .place_all(alloc, mill, self.limit, &self.released, &mut self.made)
    }

    // Takes the slabs that were made as the plan, where they make it no worse.
    fn take_if_no_worse(&mut self, mill: &Mill) -> Result<(), AllocError>
        requires sound { IsSound mill.now self.old }
        requires few { length self.old.made.items ≤ most_orders }
        requires made { IsStart mill.now self.old.limit
            (plan_of_filled mill.now self.old.made.items) }
        requires slabs { slabs_of (plan_of_filled mill.now self.old.made.items)
            ≡ closed_slabs mill.now self.old.made.items }
        ensures plan { OnOk result (plan_at mill.now self.new
            ≡ no_worse_plan mill.now (plan_at mill.now self.old) (Some self.old.made.items)) }
        ensures last { OnOk result (self.new.placing.draws.last ≡ self.old.placing.draws.last) }
        ensures limit { OnOk result (self.new.limit ≡ self.old.limit) }
        ensures sound { OnOk result (IsSound mill.now self.new) }
    {
        let sums = closed_sums(mill, &self.table, &self.made);
        if is_no_worse(sums, self.sums) {
            self.placing.shelf.take_back(&mut self.slabs)?;
            close_onto(mill, &mut self.made, &mut self.slabs)?;
            self.sums = sums;
        }
        Ok(())
    }

    // The plan.
    pub(crate) fn plan(&self, alloc: Global, mill: &Mill) -> Result<Plan, AllocError>
        requires { IsSound mill.now self.now }
        ensures { IfOk result (λ plan. plan ≡ plan_at mill.now self.now) }
    {
        let kinds = kinds_of(alloc, &self.slabs)?;
        let place = places_of(alloc, mill, &self.slabs)?;
        Ok(Plan::new(kinds, place))
    }
}

// The sums of a plan that is legal.
fn sums_of_start(mill: &Mill, plan: &Plan) -> Sums
    requires { IsLegal mill.now plan.now }
    ensures { result ≡ sums_of mill.now plan.now }
{
    match plan.judge(mill) {
        Ok(sums) => sums,
        Err(_) => Sums { loss: 0, count: 0 },
    }
}

// The slabs of a plan.
fn slabs_of_plan(alloc: Global, shelf: &mut Shelf, plan: &Plan) -> Result<Vec<Slab>, AllocError>
    requires { length plan.now.place ≤ most_orders }
    ensures { IfOk result (λ slabs. slabs.items ≡ slabs_of plan.now) }
{
    let mut slabs = Vec::with_capacity(alloc, plan.place().len())?;
    for k in 0..plan.kinds().len() {
        let list = shelf.take(alloc);
        slabs.push(slab_of(list, plan, k)?)?;
    }
    Ok(slabs)
}

// Slab k of a plan, whose orders go into a list without orders.
fn slab_of(list: Vec<u16>, plan: &Plan, k: usize) -> Result<Slab, AllocError>
    requires list { list.items ≡ [] }
    requires slab { k < length plan.now.kinds }
    requires places { length plan.now.place ≤ most_orders }
    ensures { IfOk result (λ slab. slab ≡ slab_of_plan plan.now k) }
{
    let mut orders = list;
    for o in 0..plan.place().len() {
        if usize::from(plan.place()[o]) == k {
            orders.push(o as u16)?;
        }
    }
    Ok(Slab::new(plan.kinds()[k], orders))
}
