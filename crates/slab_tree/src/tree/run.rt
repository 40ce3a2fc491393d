//! The search: depth first, yes before no, under limits that fall.

ghost use Rattle.std.specs.Prelude.{◌≡◌, ◌≤◌, ◌<◌, ◌↔◌, IfOk, IfSome, OnOk, OnErr, IsSome, IsTrue, [], true};
ghost use Rattle.mill_model.specs.Decisions.{IsAskAmong};
ghost use Rattle.mill_model.specs.Paths.{next_branch as branch_after};
ghost use Rattle.mill_model.specs.Plain.{IsPlainlyRefuted};
ghost use Rattle.mill_model.specs.Trees.{most_nodes};
ghost use Rattle.slab_relax.specs.PoolCovers.{IsPoolCover};
ghost use Rattle.slab_relax.specs.Tallies.{AreNoLess, HasCause, HaveCauses};
ghost use Rattle.slab_node.specs.Turns.{IsOpenAsk, IsUndecided};
ghost use Rattle.slab_tree.specs.Asking.{AreThere, extent_of};
ghost use Rattle.slab_tree.specs.Counts.{IsCountedSplit};
ghost use Rattle.slab_repack.specs.FoundPlans.{IsFoundPlan};
ghost use Rattle.slab_tree.specs.Marking.{is_bare};
ghost use Rattle.slab_tree.specs.Standing.{IsOpenPath};
ghost use Rattle.slab_tree.specs.Searches.{HasBareEnd, IsReady, IsRunning, IsEnded, IsAnswer, IsLater, IsSameQuestion, AreRaisedBy, limits_of, bare_count};
ghost use Rattle.slab_tree.specs.Stepping.{HasBegun, MayHaveLowered, IsClosed, IsClosedAtOnce, IsSplitUnder, IsStepped, IsPlaceAt};

use super::{Ended, Tree};
use crate::Nodes;
use crate::bounding::bounded_turn;
use crate::dives::dive;
use crate::guide::Guide;
use crate::path::decide;
use crate::showing::shown_or_plain;
use crate::workplace::Workplace;
use loss_table::LossTable;
use mill_model::{Ask, Mark, Mill, Plan, Prices};
use slab_columns::Pool;
use slab_decide::Decisions;
use slab_node::{Cover, Tally, Turned};
use std::alloc::{AllocError, Global};

impl Tree {
    /// Runs the search, or goes on with it. Where a plan is found, the loss limit falls below its loss for the whole tree. A node
    /// takes turns until prices close it, or a cover shows that none do; then it is split, or marked bare where a counter of the
    /// tally rose in place of a cover. Where a split would give more nodes than the limit, the run ends with Budget.
    ///
    /// The only error is want of memory. A later run on the tree then goes on under the same contract.
    pub fn run(
        &mut self,
        alloc: Global,
        mill: &Mill,
        table: &LossTable,
        pool: &mut Pool,
        nodes: &mut Nodes,
        tally: &mut Tally,
    ) -> Result<Ended, AllocError>
        requires tree { IsReady mill.now self.old }
        requires room { self.old.opened ≤ nodes.old.limit }
        requires sizes { table.now ≡ mill.now.sizes }
        requires pool { pool.old.mill ≡ mill.now }

        // How it ends.
        ensures ended { IfOk result (IsEnded mill.now nodes.old.limit self.old self.new) }
        ensures memory { OnErr result (IsRunning mill.now self.new) }
        ensures later { OnErr result (IsLater mill.now self.old self.new) }
        ensures question { IsSameQuestion self.old self.new }

        // Limits that are plainly refuted at the start take one node.
        ensures plain { IsPlainlyRefuted mill.now (limits_of self.old) → self.old.nodes ≡ [] → IfOk result IsAnswer }
        ensures one { IsPlainlyRefuted mill.now (limits_of self.old) → self.old.nodes ≡ [] → self.new.opened ≡ 1 }

        // What the tree gained, and what that has to do with the counts.
        ensures room { self.new.opened ≤ nodes.old.limit }
        ensures few { self.new.opened < most_nodes mill.now }
        ensures counts { AreRaisedBy nodes.old nodes.new self.old self.new }
        ensures counters { AreNoLess tally.old tally.new }
        ensures causes { HaveCauses (bare_count self.old.nodes) tally.old (bare_count self.new.nodes) tally.new }
        ensures bare_end { HasBareEnd self.new → HasCause tally.old tally.new }
        ensures mill { pool.new.mill ≡ mill.now }
    {
        let (mut place, mut guide) = self.begin(alloc, mill, table, nodes)?;
        'nodes: loop {
            if !self.step(alloc, &mut place, &mut guide, pool, nodes, tally)? {
                return Ok(self.finish());
            }
        }
    }

    // Takes the root's node, and a plan that a search finds before the first turn. It answers the workplace, told of the decisions
    // above the next node, and what guides the run.
    fn begin<'a>(
        &mut self,
        alloc: Global,
        mill: &'a Mill,
        table: &'a LossTable,
        nodes: &mut Nodes,
    ) -> Result<(Workplace<'a>, Guide), AllocError>
        requires tree { IsReady mill.now self.old }
        requires room { self.old.opened ≤ nodes.old.limit }
        requires sizes { table.now ≡ mill.now.sizes }
        ensures begun { HasBegun mill.now self.old self.new nodes.old nodes.new }
        ensures mill { IfOk result (λ made. made.0.mill.now ≡ mill.now) }
        ensures told { IfOk result (λ made. made.0.decisions.list ≡ self.new.path) }
    {
        let _counted = nodes.opened();
        let _limit = nodes.limit();
        self.start(nodes);
        let mut guide = Guide::new(alloc, mill, table)?;
        let mut place = Workplace::new(alloc, mill, table)?;
        self.seek_first(alloc, mill, &mut guide)?;
        self.tell(&mut place.decisions);
        Ok((place, guide))
    }

    // Takes a plan within the limits that a search finds near the best one, if it finds one.
    fn seek_first(
        &mut self,
        alloc: Global,
        mill: &Mill,
        guide: &mut Guide,
    ) -> Result<(), AllocError>
        requires { IsRunning mill.now self.old }
        ensures lowered { MayHaveLowered mill.now self.old self.new }
    {
        let _orders = mill.orders();
        let limits = self.limits();
        match guide.begin(alloc, mill, self.best.as_ref(), limits)? {
            Some(plan) => {
                self.lower(mill, plan);
                Ok(())
            }
            None => Ok(()),
        }
    }

    // Takes one turn at the next node. It answers whether the run goes on.
    fn step(
        &mut self,
        alloc: Global,
        place: &mut Workplace<'_>,
        guide: &mut Guide,
        pool: &mut Pool,
        nodes: &mut Nodes,
        tally: &mut Tally,
    ) -> Result<bool, AllocError>
        requires tree { IsRunning place.old.mill.now self.old }
        requires room { self.old.opened ≤ nodes.old.limit }
        requires place { IsPlaceAt place.old pool.old self.old.path }
        ensures ok { IfOk result (IsStepped place.old.mill.now nodes.old.limit self.old self.new) }
        ensures err { OnErr result (self.new ≡ self.old) }
        ensures plain { IsPlainlyRefuted place.old.mill.now (limits_of self.old) → self.old.path ≡ [] → IfOk result (IsClosedAtOnce self.old self.new) }
        ensures place { IfOk result (λ on. on ≡ true → IsPlaceAt place.new pool.new self.new.path) }
        ensures pool { pool.new.mill ≡ place.old.mill.now }
        ensures mill { place.new.mill.now ≡ place.old.mill.now }
        ensures counters { AreNoLess tally.old tally.new }
        ensures causes { HaveCauses (bare_count self.old.nodes) tally.old (bare_count self.new.nodes) tally.new }
        ensures bare_end { HasBareEnd self.new → HasCause tally.old tally.new }
        ensures counts { AreRaisedBy nodes.old nodes.new self.old self.new }
    {
        let _counted = nodes.opened();
        let limits = self.limits();
        match bounded_turn(alloc, place, guide, limits, pool, tally)? {
            Turned::Refuted(prices) => self.close_next(prices, &mut place.decisions, guide),
            Turned::InBox(plan) => {
                self.lower(place.mill, plan);
                Ok(true)
            }
            Turned::Spread(cover, first) => {
                self.split_next(alloc, place, &cover, first, guide, pool, nodes, tally)
            }
            Turned::Bare(ask) => self.go_down(ask, Mark::Bare, &mut place.decisions, guide, nodes),
        }
    }

    // Closes the next node, and turns back to the next branch, whose decisions are then told.
    fn close_next(
        &mut self,
        prices: Prices,
        decisions: &mut Decisions,
        guide: &mut Guide,
    ) -> Result<bool, AllocError>
        requires { IsOpenPath decisions.old.orders decisions.old.yard self.old.path }
        ensures ok { OnOk result (IsClosed prices self.old self.new) }
        ensures on { IfOk result (λ on. IsTrue on ↔ IsSome (branch_after self.old.path)) }
        ensures err { OnErr result (self.new ≡ self.old) }
        ensures told { IfOk result (λ on. on ≡ true → decisions.new ≡ record decisions.old { list = self.new.path }) }
        ensures extent { extent_of decisions.new ≡ extent_of decisions.old }
    {
        guide.close(&self.path);
        let on = self.turn_back(prices, decisions)?;
        guide.turn_back(&self.path);
        Ok(on)
    }

    // Goes on from a cover that a turn gave: takes a plan that it leads to, or else splits the next node.
    fn split_next(
        &mut self,
        alloc: Global,
        place: &mut Workplace<'_>,
        cover: &Cover,
        first: Ask,
        guide: &mut Guide,
        pool: &mut Pool,
        nodes: &mut Nodes,
        tally: &mut Tally,
    ) -> Result<bool, AllocError>
        requires tree { IsRunning place.old.mill.now self.old }
        requires room { self.old.opened ≤ nodes.old.limit }
        requires place { IsPlaceAt place.old pool.old self.old.path }
        requires first { IsOpenAsk place.old.mill.now self.old.path first }
        requires cover { IsPoolCover place.old.mill.now (limits_of self.old) self.old.path pool.old.columns cover.now }
        ensures ok { IfOk result (IsStepped place.old.mill.now nodes.old.limit self.old self.new) }
        ensures err { OnErr result (self.new ≡ self.old) }
        ensures place { IfOk result (λ on. on ≡ true → IsPlaceAt place.new pool.new self.new.path) }
        ensures pool { pool.new.mill ≡ place.old.mill.now }
        ensures mill { place.new.mill.now ≡ place.old.mill.now }
        ensures counters { AreNoLess tally.old tally.new }
        ensures bares { bare_count self.new.nodes ≡ bare_count self.old.nodes }
        ensures end { HasBareEnd self.new → ⊥ }
        ensures counts { AreRaisedBy nodes.old nodes.new self.old self.new }
    {
        let _counted = nodes.opened();
        let ask = guide.choose(place, pool, cover, first)?;
        let keeps = guide.keeps(cover.list().len());
        let mark = shown_or_plain(alloc, pool, cover, keeps, tally)?;
        match self.seek(alloc, place, cover, guide, pool, tally)? {
            Some(plan) => {
                self.lower(place.mill, plan);
                Ok(true)
            }
            None => self.go_down(ask, mark, &mut place.decisions, guide, nodes),
        }
    }

    // Looks for a plan within the limits from a cover: rounded or near that, and by dives where they are due.
    fn seek(
        &self,
        alloc: Global,
        place: &mut Workplace<'_>,
        cover: &Cover,
        guide: &mut Guide,
        pool: &mut Pool,
        tally: &mut Tally,
    ) -> Result<Option<Plan>, AllocError>
        requires tree { IsRunning place.old.mill.now self.now }
        requires place { IsPlaceAt place.old pool.old self.now.path }
        requires cover { AreThere pool.old.columns cover.now }
        ensures found { IfOk result (λ found. IfSome found (IsFoundPlan place.old.mill.now (limits_of self.now))) }
        ensures place { OnOk result (IsPlaceAt place.new pool.new self.now.path) }
        ensures pool { pool.new.mill ≡ place.old.mill.now }
        ensures mill { place.new.mill.now ≡ place.old.mill.now }
        ensures counters { AreNoLess tally.old tally.new }
    {
        let limits = self.limits();
        if let Some(plan) = guide.seek(alloc, place.mill, pool, cover, limits, self.nodes.len())? {
            return Ok(Some(plan));
        }
        for _ in 0..guide.dives_due(self.nodes.len()) {
            let aims = guide.dive_limits(limits);
            let found = dive(alloc, place, &self.path, cover, aims, pool, tally)?;
            self.tell(&mut place.decisions);
            if found.is_some() {
                return Ok(found);
            }
        }
        Ok(None)
    }

    // Splits the next node, and goes down to its branch for yes, whose decisions are then told.
    fn go_down(
        &mut self,
        ask: Ask,
        mark: Mark,
        decisions: &mut Decisions,
        guide: &mut Guide,
        nodes: &mut Nodes,
    ) -> Result<bool, AllocError>
        requires room { self.old.opened ≤ nodes.old.limit }
        requires asked { IsAskAmong decisions.old.orders decisions.old.yard ask }
        requires undecided { IsUndecided decisions.old.list ask }
        requires path { decisions.old.list ≡ self.old.path }
        ensures ok { IfOk result (IsSplitUnder ask mark nodes.old.limit self.old self.new) }
        ensures err { OnErr result (self.new ≡ self.old) }
        ensures told { IfOk result (λ on. on ≡ true → decisions.new ≡ record decisions.old { list = self.new.path }) }
        ensures extent { extent_of decisions.new ≡ extent_of decisions.old }
        ensures counted { IfOk result (IsCountedSplit (is_bare mark) nodes.old nodes.new) }
        ensures uncounted { OnErr result (nodes.new ≡ nodes.old) }
    {
        guide.go_down(&self.path)?;
        let on = self.split(ask, mark, nodes)?;
        if on {
            decide(decisions, ask, true);
        }
        Ok(on)
    }
}
