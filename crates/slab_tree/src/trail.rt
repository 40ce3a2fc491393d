//! The decisions of a dive, which may be taken back.

ghost use Rattle.slab_tree.specs.Trails.{HasExtentOf};

use crate::questions::is_among;
use mill_model::{Ask, Kind, Mill};
use slab_decide::Decisions;
use std::alloc::{AllocError, Global};

// A dive turns back at most so often.
const MOST_REVERSALS: u32 = 3;

// The decisions so far. For each choice: how many there were before it, and the first question that it decided.
#[derive(Drop)]
pub(crate) struct Trail {
    list: Vec<(Ask, bool)>,
    choices: Vec<(usize, Ask)>,
    reversals: u32,
}

impl Trail {
    pub(crate) fn new(alloc: Global, path: &[(Ask, bool)]) -> Result<Trail, AllocError> {
        Ok(Trail {
            list: Vec::from_slice(alloc, path)?,
            choices: Vec::new(alloc),
            reversals: 0,
        })
    }

    // Chooses yes for a question.
    pub(crate) fn decide_ask(
        &mut self,
        mill: &Mill,
        decisions: &mut Decisions,
        ask: Ask,
    ) -> Result<(), AllocError>
        requires { HasExtentOf mill.now decisions.old }
        ensures { HasExtentOf mill.now decisions.new }
    {
        self.choices.push((self.list.len(), ask))?;
        self.decide(mill, decisions, ask)?;
        Ok(())
    }

    // Chooses a column: its orders lie together, and on its surplus slab. It answers whether anything was left to decide.
    pub(crate) fn decide_column(
        &mut self,
        mill: &Mill,
        decisions: &mut Decisions,
        kind: Kind,
        orders: &[u16],
    ) -> Result<bool, AllocError>
        requires { HasExtentOf mill.now decisions.old }
        ensures { HasExtentOf mill.now decisions.new }
    {
        let before = self.list.len();
        let Some((first, others)) = orders.split_first() else {
            return Ok(false);
        };
        for other in others {
            self.decide(mill, decisions, Ask::Pair(*first, *other))?;
        }
        if let Kind::Old(s) = kind {
            self.decide(mill, decisions, Ask::Put(*first, s))?;
        }
        match self.list.get(before).copied() {
            Some((ask, _)) => {
                self.choices.push((before, ask))?;
                Ok(true)
            }
            None => Ok(false),
        }
    }

    // Takes the latest choice back and decides no in its place. It answers false where none is left, or too many were taken back.
    pub(crate) fn reverse(
        &mut self,
        mill: &Mill,
        decisions: &mut Decisions,
    ) -> Result<bool, AllocError>
        requires { HasExtentOf mill.now decisions.old }
        ensures { HasExtentOf mill.now decisions.new }
    {
        if self.reversals >= MOST_REVERSALS {
            return Ok(false);
        }
        let Some((before, ask)) = self.choices.pop() else {
            return Ok(false);
        };
        self.reversals += 1;
        self.list.truncate(before);
        self.list.push((ask, false))?;
        self.retell(mill, decisions);
        Ok(true)
    }

    // Decides yes, where the question is open.
    fn decide(&mut self, mill: &Mill, decisions: &mut Decisions, ask: Ask) -> Result<(), AllocError>
        requires { HasExtentOf mill.now decisions.old }
        ensures { HasExtentOf mill.now decisions.new }
    {
        if try_decide(mill, decisions, ask, true) {
            self.list.push((ask, true))?;
        }
        Ok(())
    }

    // Makes the decisions those of the list, as far as they don't clash.
    fn retell(&self, mill: &Mill, decisions: &mut Decisions)
        requires { HasExtentOf mill.now decisions.old }
        ensures { HasExtentOf mill.now decisions.new }
    {
        decisions.reset();
        for (ask, yes) in &self.list {
            try_decide(mill, decisions, *ask, *yes);
        }
    }
}

// Decides an open question of the mill. It answers whether it was one.
fn try_decide(mill: &Mill, decisions: &mut Decisions, ask: Ask, yes: bool) -> bool
    requires { HasExtentOf mill.now decisions.old }
    ensures { HasExtentOf mill.now decisions.new }
{
    let orders = mill.orders().len() as u16;
    let yard = mill.yard().len() as u16;
    if !is_among(orders, yard, ask) || decisions.follows(ask).is_some() {
        return false;
    }
    match ask {
        Ask::Pair(i, j) => decisions.pair(i, j, yes).is_ok(),
        Ask::Put(o, s) => decisions.put(o, s, yes).is_ok(),
    }
}
