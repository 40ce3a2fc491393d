//! Answers that a basis shows, if their tests hold.

ghost use Rattle.std.specs.Prelude.{ℕ, ◌≡◌, ◌≤◌, vec_len, IfOk};
ghost use Rattle.slab_master.specs.Problems.{TurnHolds};

use crate::check::{Tested, test_prices, test_spread};
use crate::check_least::test_least;
use crate::frac_list::FracList;
use crate::outcome::{Answer, Turn};
use crate::problem::{Aim, Problem};
use crate::search::{Basis, WholeRow};
use slab_frac::Wides;
use std::alloc::{AllocError, Global};

// So many zeros.
fn zeros(alloc: Global, count: usize) -> Result<Vec<i64>, AllocError>
    ensures { IfOk result (λ v. vec_len v ≡ count) }
{
    let mut room = Vec::new(alloc);
    room.resize(count, 0)?;
    Ok(room)
}

// The spread that the basis shows, if its test holds and nothing more is asked.
pub(crate) fn offer_spread(
    alloc: Global,
    problem: &Problem<'_>,
    working: &[WholeRow],
    basis: &Basis,
    wides: &mut Wides,
) -> Result<Turn, AllocError>
    ensures grows { wides.old ≤ wides.new }
    ensures holds { IfOk result (TurnHolds problem.now wides.old wides.new) }
{
    if problem.goal != Aim::Meet {
        return Ok(Turn::Again);
    }
    let spread = basis.spread(alloc, working, problem.columns.len(), wides)?;
    let mut scaled = zeros(alloc, problem.columns.len())?;
    match test_spread(problem, &spread, &mut scaled, wides) {
        Tested::Holds(_denominator) => Ok(Turn::Answers(Answer::Meets(FracList::new(spread)))),
        Tested::Fails => Ok(Turn::Again),
        Tested::Wide => Ok(Turn::TooWide),
    }
}

// The prices that the basis shows, if their test holds.
pub(crate) fn offer_prices(
    alloc: Global,
    problem: &Problem<'_>,
    basis: &Basis,
    wides: &mut Wides,
) -> Result<Turn, AllocError>
    ensures grows { wides.old ≤ wides.new }
    ensures holds { IfOk result (TurnHolds problem.now wides.old wides.new) }
{
    let prices = basis.prices(alloc, problem.rows.len(), wides)?;
    let mut scaled = zeros(alloc, problem.rows.len())?;
    match test_prices(problem, &prices, &mut scaled, wides) {
        Tested::Holds(_denominator) => Ok(Turn::Answers(Answer::Refutes(FracList::new(prices)))),
        Tested::Fails => Ok(Turn::Again),
        Tested::Wide => Ok(Turn::TooWide),
    }
}

// The spread of least cost that the basis shows, with the prices that show it, if their test holds.
pub(crate) fn offer_least(
    alloc: Global,
    problem: &Problem<'_>,
    working: &[WholeRow],
    basis: &Basis,
    wides: &mut Wides,
) -> Result<Turn, AllocError>
    ensures grows { wides.old ≤ wides.new }
    ensures holds { IfOk result (TurnHolds problem.now wides.old wides.new) }
{
    if problem.goal != Aim::Lessen {
        return Ok(Turn::Again);
    }
    let x = basis.spread(alloc, working, problem.columns.len(), wides)?;
    let y = basis.prices(alloc, problem.rows.len(), wides)?;
    let mut multipliers = zeros(alloc, problem.columns.len())?;
    let mut prices = zeros(alloc, problem.rows.len())?;
    match test_least(problem, &x, &y, &mut multipliers, &mut prices, wides) {
        Tested::Holds(_denominator) => Ok(Turn::Answers(Answer::Best {
            x: FracList::new(x),
            y: FracList::new(y),
        })),
        Tested::Fails => Ok(Turn::Again),
        Tested::Wide => Ok(Turn::TooWide),
    }
}
