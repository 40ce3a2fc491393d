//! A whole solve: turns of the search, until an answer's test holds.

ghost use Rattle.std.specs.Prelude.{ℕ, ◌≡◌, ◌≤◌, IfOk, OnErr};
ghost use Rattle.slab_master.specs.Problems.{given_of, TurnHolds, EndedAs, stalls_after_end};
ghost use Rattle.slab_master.specs.StallCounts.{RoseAtMost};

use crate::offers::{offer_least, offer_prices, offer_spread};
use crate::outcome::{Ended, Turn};
use crate::problem::Problem;
use crate::search::{Basis, Step, WholeRow};
use crate::stalls::Stalls;
use slab_frac::Wides;
use std::alloc::{AllocError, Global};

// The most pivots of one solve.
const PIVOTS: u32 = 20_000;

// Makes the working rows anew, with nothing preferred.
fn restart(
    problem: &Problem<'_>,
    working: &mut [WholeRow],
    basis: &mut Basis,
    wides: &mut Wides,
) -> Result<Turn, AllocError>
    ensures grows { wides.old ≤ wides.new }
    ensures holds { IfOk result (TurnHolds problem.now wides.old wides.new) }
{
    match basis.restart(problem, working, wides)? {
        Some(()) => Ok(Turn::Again),
        None => Ok(Turn::TooWide),
    }
}

// One turn: a pivot, or an answer whose test holds. Where the test of an answer fails, which exact rows never make
// happen, the working rows are made anew.
fn turn(
    alloc: Global,
    problem: &Problem<'_>,
    working: &mut [WholeRow],
    basis: &mut Basis,
    wides: &mut Wides,
) -> Result<Turn, AllocError>
    ensures grows { wides.old ≤ wides.new }
    ensures holds { IfOk result (TurnHolds problem.now wides.old wides.new) }
{
    let offered = match basis.step(problem, working, wides) {
        Step::Moved => return Ok(Turn::Again),
        Step::Wide => return Ok(Turn::TooWide),
        Step::Meets => offer_spread(alloc, problem, working, basis, wides)?,
        Step::Refutes => offer_prices(alloc, problem, basis, wides)?,
        Step::Least => offer_least(alloc, problem, working, basis, wides)?,
        Step::Lost => Turn::Again,
    };
    match offered {
        Turn::Again => restart(problem, working, basis, wides),
        Turn::TooWide => Ok(Turn::TooWide),
        Turn::Answers(answer) => Ok(Turn::Answers(answer)),
    }
}

// Solves the problem, from where the solve before ended.
#[tactic(auto, using(crate::proofs::PivotCounts::rose_by_more, crate::proofs::PivotCounts::rose_at_most_more, crate::proofs::PivotCounts::rose_at_most_weaker))]
pub(crate) fn solve_over(
    alloc: Global,
    problem: &Problem<'_>,
    working: &mut [WholeRow],
    basis: &mut Basis,
    wides: &mut Wides,
    stalls: &mut Stalls,
) -> Result<Ended, AllocError>
    ensures grows { wides.old ≤ wides.new }
    ensures pivots { RoseAtMost 20000 stalls.old.pivots stalls.new.pivots }
    ensures holds { IfOk result (EndedAs (given_of problem.now) problem.now.costs.now problem.now.goal wides.old wides.new stalls.old stalls.new) }
    ensures stalls { IfOk result (λ e. stalls.new.stalls ≡ stalls_after_end e stalls.old.stalls) }
    ensures err { OnErr result (stalls.new.stalls ≡ stalls.old.stalls) }
{
    if basis.begin(problem, working, wides)?.is_none() {
        return Ok(Ended::LeftRange);
    }
    for _turn in 0..PIVOTS {
        match turn(alloc, problem, working, basis, wides)? {
            Turn::Answers(answer) => {
                basis.set_standing(true);
                return Ok(Ended::Answered(answer));
            }
            Turn::TooWide => return Ok(Ended::LeftRange),
            Turn::Again => stalls.add_pivot(),
        }
    }
    stalls.add_stall();
    Ok(Ended::GaveUp)
}
