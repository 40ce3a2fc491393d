//! The turn of a root, which no decision precedes.

ghost use Rattle.std.specs.Prelude.{◌≡◌, length, IfOk};
ghost use Rattle.mill_model.specs.Limits.{number_of};
ghost use Rattle.mill_model.specs.Plain.{IsPlainlyRefuted};
ghost use Rattle.slab_master.specs.Given.{IsSmall};
ghost use Rattle.slabbench.specs.declared.turns.Answer.TheVariants.{Refuted};
ghost use Rattle.slabbench.specs.Answers.{answer_of};
ghost use Rattle.slabbench.specs.Roots.{AreSmallLimits};

use loss_table::LossTable;
use mill_model::{Limits, Mill};
use slab_columns::Pool;
use slab_decide::Decisions;
use slab_node::{Tally, Turned, turn};
use std::alloc::{AllocError, Global};

/// Which answer a turn gave.
#[derive(Clone, Copy)]
pub enum Answer {
    Refuted,
    Plan,
    Spread,
    Bare,
}

/// What the last of the turns came to.
#[derive(Drop)]
pub struct Done {
    pub answer: Answer,
    /// How many columns joined the pool, and one more: the rounds of a turn that takes any. It is 1 also for a turn that is
    /// decided without a round.
    pub rounds: usize,
    pub tally: Tally,
}

impl Answer {
    /// The word that is printed.
    pub fn word(self) -> &'static str {
        match self {
            Answer::Refuted => "refuted",
            Answer::Plan => "plan",
            Answer::Spread => "spread",
            Answer::Bare => "bare",
        }
    }
}

// A limit of a root.
fn limit_of(limit: Option<i32>) -> Option<i64>
    ensures value { result ≡ limit }
    ensures small { IsSmall (number_of result) }
{
    match limit {
        Some(number) => Some(i64::from(number)),
        None => None,
    }
}

/// The limits of a root.
pub fn limits_of(loss: Option<i32>, count: Option<i32>) -> Limits
    ensures loss { result.loss ≡ loss }
    ensures count { result.count ≡ count }
    ensures small { AreSmallLimits result }
{
    Limits {
        loss: limit_of(loss),
        count: limit_of(count),
    }
}

// Which answer it is.
fn answer_of(turned: &Turned) -> Answer
    ensures { result ≡ answer_of turned.now }
{
    match turned {
        Turned::Refuted(_prices) => Answer::Refuted,
        Turned::InBox(_plan) => Answer::Plan,
        Turned::Spread(_cover, _ask) => Answer::Spread,
        Turned::Bare(_ask) => Answer::Bare,
    }
}

// One turn on a new pool.
fn turn_once(
    alloc: Global,
    mill: &Mill,
    table: &LossTable,
    decisions: &Decisions,
    limits: Limits,
) -> Result<Done, AllocError>
    requires sizes { table.now ≡ mill.now.sizes }
    requires orders { decisions.now.orders ≡ length mill.now.orders }
    requires yard { decisions.now.yard ≡ length mill.now.yard }
    requires limits { AreSmallLimits limits }
    ensures plain { IsPlainlyRefuted mill.now limits → IfOk result (λ done. done.answer ≡ Refuted) }
{
    let mut pool = Pool::new(alloc, mill)?;
    let mut tally = Tally::new();
    let turned = turn(alloc, mill, table, decisions, limits, &mut pool, &mut tally)?;
    Ok(Done {
        answer: answer_of(&turned),
        rounds: pool.len().saturating_add(1),
        tally,
    })
}

/// Takes the turn of a mill's root so often, each time with a new pool.
pub fn turn_root(alloc: Global, mill: &Mill, limits: Limits, times: u16) -> Result<Done, AllocError>
    requires { AreSmallLimits limits }
    ensures plain { IsPlainlyRefuted mill.now limits → IfOk result (λ done. done.answer ≡ Refuted) }
{
    let table = LossTable::new(alloc, mill)?;
    let orders = mill.orders().len() as u16;
    let yard = mill.yard().len() as u16;
    let decisions = Decisions::new(alloc, orders, yard)?;
    let mut done = turn_once(alloc, mill, &table, &decisions, limits)?;
    'again: for _ in 1..times {
        done = turn_once(alloc, mill, &table, &decisions, limits)?;
    }
    Ok(done)
}
