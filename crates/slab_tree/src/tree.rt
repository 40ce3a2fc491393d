//! One question's tree: what it keeps, and the moves that a search makes in it.

ghost use Rattle.std.specs.Prelude.{◌≡◌, ◌+◌, ◌<◌, ◌≤◌, ◌^◌, ◌↔◌, ◌∷◌, IfOk, OnOk, OnErr, IfSome, IsTrue, IsSome, true};
ghost use Rattle.mill_model.specs.Limits.{number_of};
ghost use Rattle.mill_model.specs.Paths.{next_branch as branch_after};
ghost use Rattle.mill_model.specs.Plans.{IsLegal, sums_of};
ghost use Rattle.mill_model.specs.Starts.{IsStart};
ghost use Rattle.slab_master.specs.Given.{IsSmall};
ghost use Rattle.slab_tree.specs.Asking.{extent_of};
ghost use Rattle.slab_tree.specs.Counts.{IsCountedSplit};
ghost use Rattle.slab_tree.specs.Marking.{is_bare};
ghost use Rattle.slab_tree.specs.Standing.{IsOpenPath};
ghost use Rattle.slab_tree.specs.Searches.{IsNew, limits_of, loss_below};
ghost use Rattle.slab_tree.specs.Stepping.{IsClosed, IsBranched, IsSplitUnder, IsStarted, IsFinish};

mod ends;
mod run;
mod tighten;

use crate::path::{next_branch, replay};
use crate::showing::is_bare;
use crate::{Node, Nodes};
use mill_model::{Ask, Limits, Mark, Mill, Plan, Prices};
use slab_decide::Decisions;
use std::alloc::{AllocError, Global};
use std::marker::Model;

/// Where a run stands.
#[derive(Clone, Copy, Drop)]
pub enum Phase {
    /// There is no node yet.
    New,
    /// The next node is to be decided.
    Running,
    /// All nodes are decided: the run ended with the least loss, or with no plan.
    Done,
    /// The next node's split was refused; whether it is bare.
    Refused(bool),
}

/// How a run ended.
#[derive(Drop)]
pub enum Ended {
    /// The plan of least loss.
    Least(Plan),
    /// There is none.
    NoPlan,
    /// The next split would give the tree more nodes than the limit.
    Budget,
}

/// One question's tree: which plan within a count limit has the least loss, or that there is none, and why. A contract sees it
/// as a `Search`: its limits, its best plan, the decided nodes in preorder, the decisions above the next node (the latest
/// first), how many nodes are decided or wait, and where its run stands.
#[derive(Drop)]
pub struct Tree {
    count: Option<i64>,
    opening: Option<i64>,
    loss: Option<i64>,
    best: Option<Plan>,
    nodes: Vec<Node>,
    path: Vec<(Ask, bool)>,
    opened: u64,
    phase: Phase,
}

impl Model for Tree {
    ghost use Rattle.std.specs.Prelude.{reverse};
    ghost use Rattle.slab_tree.specs.Searches.{Search};

    ghost Value = { Search };

    ghost view = { λ t. record { count = t.count; opening = t.opening; loss = t.loss; best = t.best; nodes = t.nodes.items; path = reverse t.path.items; opened = t.opened; phase = t.phase } };
}

impl Tree {
    /// A question about plans within the count limit, whose best plan known so far is handed in. The tree has no node yet. Its only
    /// error is want of memory.
    pub fn question(
        alloc: Global,
        mill: &Mill,
        count_limit: Option<i64>,
        best: Option<Plan>,
    ) -> Result<Tree, AllocError>
        requires count { IsSmall (number_of count_limit) }
        requires best { IfSome best (IsStart mill.now count_limit) }
        ensures tree { IfOk result (IsNew mill.now) }
        ensures count { IfOk result (λ t. t.count ≡ count_limit) }
        ensures best { IfOk result (λ t. t.best ≡ best) }
        ensures loss { IfOk result (λ t. t.loss ≡ t.opening) }
    {
        let loss = match &best {
            Some(plan) => match plan.judge(mill) {
                Ok(sums) => Some(i64::from(sums.loss) - 1),
                Err(_) => unreachable!(),
            },
            None => None,
        };
        Ok(Tree {
            count: count_limit,
            opening: loss,
            loss,
            best,
            nodes: Vec::new(alloc),
            path: Vec::new(alloc),
            opened: 0,
            phase: Phase::New,
        })
    }

    // The present limits.
    fn limits(&self) -> Limits
        ensures { result ≡ limits_of self.now }
    {
        Limits {
            loss: self.loss,
            count: self.count,
        }
    }

    // The root takes the first node.
    fn start(&mut self, nodes: &mut Nodes)
        ensures { IsStarted self.old.phase self.old self.new nodes.old nodes.new }
    {
        match self.phase {
            Phase::New => {
                self.phase = Phase::Running;
                self.opened = 1;
                nodes.add(1);
            }
            Phase::Running | Phase::Done | Phase::Refused(_) => {}
        }
    }

    // Makes the decisions those above the next node.
    fn tell(&self, decisions: &mut Decisions)
        requires { IsOpenPath decisions.old.orders decisions.old.yard self.now.path }
        ensures { decisions.new ≡ record decisions.old { list = self.now.path } }
    {
        replay(decisions, &self.path);
    }

    // Closes the next node. It answers whether another one is left.
    fn close(&mut self, prices: Prices) -> Result<bool, AllocError>
        ensures ok { OnOk result (IsClosed prices self.old self.new) }
        ensures on { IfOk result (λ on. IsTrue on ↔ IsSome (branch_after self.old.path)) }
        ensures err { OnErr result (self.new ≡ self.old) }
    {
        self.nodes.push(Node::Closed(prices))?;
        let on = next_branch(&mut self.path);
        if !on {
            self.phase = Phase::Done;
        }
        Ok(on)
    }

    // Closes the next node, and turns back to the next branch, whose decisions are then told.
    fn turn_back(&mut self, prices: Prices, decisions: &mut Decisions) -> Result<bool, AllocError>
        requires { IsOpenPath decisions.old.orders decisions.old.yard self.old.path }
        ensures ok { OnOk result (IsClosed prices self.old self.new) }
        ensures on { IfOk result (λ on. IsTrue on ↔ IsSome (branch_after self.old.path)) }
        ensures err { OnErr result (self.new ≡ self.old) }
        ensures told { IfOk result (λ on. on ≡ true → decisions.new ≡ record decisions.old { list = self.new.path }) }
        ensures extent { extent_of decisions.new ≡ extent_of decisions.old }
    {
        let on = self.close(prices)?;
        if on {
            self.tell(decisions);
        }
        Ok(on)
    }

    // Splits the next node, and goes on to its branch for yes.
    fn branch(&mut self, ask: Ask, mark: Mark) -> Result<(), AllocError>
        ensures ok { OnOk result (IsBranched ask mark self.old self.new) }
        ensures err { OnErr result (self.new ≡ self.old) }
    {
        self.nodes.reserve(1)?;
        self.path.push((ask, true))?;
        self.nodes.push_reserved(Node::Branched(ask, mark));
        Ok(())
    }

    // Splits the next node, or keeps that its split was refused. It answers whether it was split.
    fn split(&mut self, ask: Ask, mark: Mark, nodes: &mut Nodes) -> Result<bool, AllocError>
        requires { self.old.opened ≤ nodes.old.limit }
        ensures ok { IfOk result (IsSplitUnder ask mark nodes.old.limit self.old self.new) }
        ensures err { OnErr result (self.new ≡ self.old) }
        ensures counted { IfOk result (IsCountedSplit (is_bare mark) nodes.old nodes.new) }
        ensures uncounted { OnErr result (nodes.new ≡ nodes.old) }
    {
        let bare = is_bare(&mark);
        if nodes.limit() - self.opened < 2 {
            self.phase = Phase::Refused(bare);
            return Ok(false);
        }
        self.branch(ask, mark)?;
        self.opened += 2;
        nodes.add_split(bare);
        Ok(true)
    }

    // Takes a legal plan as the best.
    fn lower(&mut self, mill: &Mill, plan: Plan)
        requires { IsLegal mill.now plan }
        ensures tree { self.new ≡ record self.old { loss = loss_below mill.now plan; best = Some plan } }
        ensures small { (sums_of mill.now plan).loss < 2 ^ 32 }
    {
        match plan.judge(mill) {
            Ok(sums) => {
                self.loss = Some(i64::from(sums.loss) - 1);
                self.best = Some(plan);
            }
            Err(_) => unreachable!(),
        }
    }

    // The answer of a run that is over.
    fn finish(&mut self) -> Ended
        ensures { IsFinish self.old.phase self.old.best self.old self.new result }
    {
        match self.phase {
            Phase::Refused(_) => Ended::Budget,
            Phase::New | Phase::Running | Phase::Done => match self.best.take() {
                Some(plan) => Ended::Least(plan),
                None => Ended::NoPlan,
            },
        }
    }
}
