//! The choice of what enters: by the reduced costs, which are whole numbers over one denominator.

use crate::check::term;
use crate::given::Sense;
use crate::problem::Problem;
use crate::search::basic::Basic;
use crate::search::whole_row::WholeRow;

// The reduced costs of the rows' unit columns, and what the columns themselves cost.
#[derive(Clone, Copy)]
pub(crate) struct Pricing<'a> {
    pub(crate) reduced: &'a WholeRow,

    // The costs of the columns, or none where they don't count.
    pub(crate) costs: &'a [i64],
}

// What enters, with its reduced cost over the denominator, which is below 0.
#[derive(Clone, Copy)]
struct Entering {
    basic: Basic,
    cost: i128,
}

impl Pricing<'_> {
    // The reduced cost of a column over the denominator.
    fn cost_of(&self, place: usize, column: &[(u16, i64)]) -> i128 {
        let product = self.reduced.product(column);
        match self.costs.get(place) {
            Some(cost) => product.wrapping_add(self.reduced.multiple(*cost)),
            None => product,
        }
    }
}

// The lesser of the best so far and a candidate, if the candidate's cost is below 0.
fn lesser(best: Option<Entering>, basic: Basic, cost: i128) -> Option<Entering> {
    let bound = match &best {
        Some(found) => found.cost,
        None => 0,
    };
    if cost < bound {
        return Some(Entering { basic, cost });
    }
    best
}

// The column of least cost among some places.
fn least_among(pricing: &Pricing<'_>, problem: &Problem<'_>, places: &[usize]) -> Option<Entering> {
    let mut best = None;
    for &place in places {
        if let Some(column) = problem.columns.get(place) {
            let cost = pricing.cost_of(place, column.as_slice());
            best = lesser(best, Basic::Column(place), cost);
        }
    }
    best
}

// The column of least cost, or the first whose cost is below 0.
fn least_column(pricing: &Pricing<'_>, problem: &Problem<'_>, first: bool) -> Option<Entering> {
    let mut best = None;
    for (place, column) in problem.columns.iter().enumerate() {
        let cost = pricing.cost_of(place, column.as_slice());
        best = lesser(best, Basic::Column(place), cost);
        if first && best.is_some() {
            return best;
        }
    }
    best
}

// The best so far or the slack of least cost, or the first whose cost is below 0.
fn least_slack(
    pricing: &Pricing<'_>,
    problem: &Problem<'_>,
    first: bool,
    best: Option<Entering>,
) -> Option<Entering> {
    let mut best = best;
    for (i, row) in problem.rows.iter().enumerate() {
        if first && best.is_some() {
            return best;
        }
        if row.0 == Sense::AtMost && i <= 65535 {
            if let Some(number) = pricing.reduced.numbers().get(i) {
                best = lesser(best, Basic::Slack(i as u16), *number as i128);
            }
        }
    }
    best
}

// What enters: of the preferred columns the one of least cost, else the column or slack of least cost, or the first one
// whose cost is below 0.
pub(crate) fn choose_entering(
    pricing: &Pricing<'_>,
    problem: &Problem<'_>,
    preferred: &[usize],
    first: bool,
) -> Option<Basic> {
    if !first {
        if let Some(found) = least_among(pricing, problem, preferred) {
            return Some(found.basic);
        }
    }
    let column = least_column(pricing, problem, first);
    least_slack(pricing, problem, first, column).map(|found| found.basic)
}
