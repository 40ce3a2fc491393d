//! A finished tree whose splits are decided anew, for the limits that the search ended with.

ghost use Rattle.std.specs.Prelude.{◌≡◌, ◌≤◌, ◌∷◌, [], IfOk, OnOk, OnErr, IsTrue, length};
ghost use Rattle.mill_model.specs.Decisions.{IsAskAmong};
ghost use Rattle.slab_relax.specs.Tallies.{AreNoLess, HaveCauses};
ghost use Rattle.slab_node.specs.Turns.{IsUndecided};
ghost use Rattle.slab_tree.specs.Marking.{is_bare};
ghost use Rattle.slab_tree.specs.Rewriting.{StillShows, HasNoPlanAt, IsRenewed, IsRewriting, MovesOn, IsTallied, AreKept, IsNoted};
ghost use Rattle.slab_tree.specs.Searches.{HasLimitsBelow, IsFinished, limits_of, bare_count};
ghost use Rattle.slab_tree.specs.Stepping.{IsBranched, IsWorkplace};
ghost use Rattle.slab_tree.specs.Tightening.{IsTightened, HasRoom, MayCountBare, AreBareCounted};

use super::{Phase, Tree};
use crate::keeping::is_loss_within;
use crate::path::decide;
use crate::rest::Rest;
use crate::showing::{is_bare, mark_of};
use crate::{Node, Nodes};
use loss_table::LossTable;
use mill_model::{Ask, Mark, Mill, Prices};
use slab_columns::Pool;
use slab_decide::Decisions;
use slab_node::{Tally, Turned, turn};
use std::alloc::{AllocError, Global};

// An inner node of the old tree, decided anew.
#[derive(Drop)]
enum Renewed {
    // Prices refute it: a leaf stands for all that was below.
    Leaf(Prices),
    // It stays a split, with this mark.
    Split(Mark),
}

impl Tree {
    /// Decides each split of a finished tree anew, for the final limits. Where prices now refute them, one leaf stands for all that
    /// was below; else the split shows a cover within these limits, or is marked bare where a counter of the tally rose. It opens
    /// no node.
    ///
    /// The only error is want of memory, and the tree is then gone.
    pub fn tighten(
        self,
        alloc: Global,
        mill: &Mill,
        table: &LossTable,
        pool: &mut Pool,
        nodes: &mut Nodes,
        tally: &mut Tally,
    ) -> Result<Tree, AllocError>
        requires tree { IsFinished mill.now self }
        requires room { MayCountBare nodes.old self }
        requires sizes { table.now ≡ mill.now.sizes }
        requires pool { pool.old.mill ≡ mill.now }

        // The new tree.
        ensures tree { IfOk result (IsTightened mill.now self) }

        // Its bare marks, and how they are counted.
        ensures causes { IfOk result (λ t. HaveCauses 0 tally.old (bare_count t.nodes) tally.new) }
        ensures counted { IfOk result (AreBareCounted nodes.old nodes.new self) }

        // What the counts do, also where memory is wanting.
        ensures limit { nodes.new.limit ≡ nodes.old.limit }
        ensures opened { nodes.new.opened ≡ nodes.old.opened }
        ensures rises { nodes.old.bare ≤ nodes.new.bare }
        ensures bare { HaveCauses nodes.old.bare tally.old nodes.new.bare tally.new }
        ensures counters { AreNoLess tally.old tally.new }
        ensures mill { pool.new.mill ≡ mill.now }
    {
        let _counted = nodes.opened();
        let orders = mill.orders().len() as u16;
        let yard = mill.yard().len() as u16;
        let mut decisions = Decisions::new(alloc, orders, yard)?;
        let (mut tree, mut rest) = self.begin_again(alloc);
        while let Some(node) = rest.next() {
            tree.rewrite(
                alloc,
                mill,
                table,
                node,
                &mut rest,
                &mut decisions,
                pool,
                nodes,
                tally,
            )?;
        }
        tree.recount();
        Ok(tree)
    }

    // All nodes are decided.
    fn recount(&mut self)
        ensures { self.new ≡ record self.old { opened = length self.old.nodes } }
    {
        self.opened = self.nodes.len() as u64;
    }

    // The tree without nodes, to be written anew, and the nodes that it had.
    fn begin_again(self, alloc: Global) -> (Tree, Rest)
        ensures tree { result.0 ≡ record self { nodes = []; path = []; opened = 0; phase = Phase.Running } }
        ensures rest { result.1 ≡ self.nodes }
    {
        let tree = Tree {
            count: self.count,
            opening: self.opening,
            loss: self.loss,
            best: self.best,
            nodes: Vec::new(alloc),
            path: Vec::new(alloc),
            opened: 0,
            phase: Phase::Running,
        };
        (tree, Rest::new(self.nodes))
    }

    // Does with one node of the old tree what there is to do: a leaf stays, an inner node is decided anew.
    fn rewrite(
        &mut self,
        alloc: Global,
        mill: &Mill,
        table: &LossTable,
        node: Node,
        rest: &mut Rest,
        decisions: &mut Decisions,
        pool: &mut Pool,
        nodes: &mut Nodes,
        tally: &mut Tally,
    ) -> Result<(), AllocError>
        requires limits { HasLimitsBelow self.old }
        requires walk { IsRewriting mill.now self.old (node ∷ rest.old) }
        requires place { IsWorkplace mill.now table.now pool.old decisions.old self.old.path }
        ensures moves { OnOk result (MovesOn mill.now self.old self.new node rest.old rest.new) }
        ensures place { OnOk result (self.new.phase ≡ Phase.Running → IsWorkplace mill.now table.now pool.new decisions.new self.new.path) }
        ensures tallied { OnOk result (HasRoom nodes.old (node ∷ rest.old) → IsTallied nodes.old nodes.new self.old.nodes self.new.nodes (node ∷ rest.old) rest.new) }
        ensures room { OnOk result (HasRoom nodes.old (node ∷ rest.old) → HasRoom nodes.new rest.new) }
        ensures causes { OnOk result (HaveCauses (bare_count self.old.nodes) tally.old (bare_count self.new.nodes) tally.new) }
        ensures kept { AreKept nodes.old nodes.new }
        ensures bare { HaveCauses nodes.old.bare tally.old nodes.new.bare tally.new }
        ensures counters { AreNoLess tally.old tally.new }
        ensures mill { pool.new.mill ≡ mill.now }
    {
        let _counted = nodes.opened();
        match node {
            Node::Closed(prices) => {
                self.turn_back(prices, decisions)?;
                Ok(())
            }
            Node::Branched(ask, mark) if self.still_shows(mill, &mark) => {
                self.keep(ask, mark, false, decisions, nodes)
            }
            Node::Branched(ask, mark) => {
                match self.decide_anew(alloc, mill, table, decisions, pool, tally)? {
                    Renewed::Leaf(prices) => {
                        rest.pass_two();
                        self.turn_back(prices, decisions)?;
                        Ok(())
                    }
                    Renewed::Split(shown) => {
                        self.keep(ask, shown, is_bare(&mark), decisions, nodes)
                    }
                }
            }
        }
    }

    // Whether the mark shows a cover that is within the final limits too.
    fn still_shows(&self, mill: &Mill, mark: &Mark) -> bool
        ensures { IsTrue result → StillShows mill.now self.now mark.now }
    {
        match mark {
            Mark::Spread(shown) => is_loss_within(mill, shown, self.loss),
            Mark::Bare | Mark::Plain => false,
        }
    }

    // Decides an inner node of the old tree anew, with one turn at the final limits, which no plan is within.
    fn decide_anew(
        &self,
        alloc: Global,
        mill: &Mill,
        table: &LossTable,
        decisions: &Decisions,
        pool: &mut Pool,
        tally: &mut Tally,
    ) -> Result<Renewed, AllocError>
        requires limits { HasLimitsBelow self.now }
        requires place { IsWorkplace mill.now table.now pool.old decisions.now self.now.path }
        requires none { HasNoPlanAt mill.now (limits_of self.now) self.now.path }
        ensures renewed { IfOk result (IsRenewed mill.now (limits_of self.now) self.now.path tally.old tally.new) }
        ensures counters { AreNoLess tally.old tally.new }
        ensures mill { pool.new.mill ≡ mill.now }
    {
        let limits = self.limits();
        match turn(alloc, mill, table, decisions, limits, pool, tally)? {
            Turned::Refuted(prices) => Ok(Renewed::Leaf(prices)),
            Turned::Spread(cover, _) => {
                let shown = mark_of(alloc, pool, &cover, tally)?;
                Ok(Renewed::Split(shown))
            }
            Turned::Bare(_) => Ok(Renewed::Split(Mark::Bare)),
            Turned::InBox(_) => unreachable!(),
        }
    }

    // Keeps a split, and goes down to its branch for yes. One that became bare is counted.
    fn keep(
        &mut self,
        ask: Ask,
        mark: Mark,
        counted: bool,
        decisions: &mut Decisions,
        nodes: &mut Nodes,
    ) -> Result<(), AllocError>
        requires asked { IsAskAmong decisions.old.orders decisions.old.yard ask }
        requires undecided { IsUndecided decisions.old.list ask }
        requires path { decisions.old.list ≡ self.old.path }
        ensures ok { OnOk result (IsBranched ask mark self.old self.new) }
        ensures told { OnOk result (decisions.new ≡ record decisions.old { list = self.new.path }) }
        ensures noted { OnOk result (IsNoted (is_bare mark) counted nodes.old nodes.new) }
        ensures unnoted { OnErr result (nodes.new ≡ nodes.old) }
    {
        let bare = is_bare(&mark);
        self.branch(ask, mark)?;
        decide(decisions, ask, true);
        if bare && !counted {
            nodes.note_bare();
        }
        Ok(())
    }
}
