ghost use Rattle.std.specs.Prelude.{IfOk, IfSome, None};
ghost use Rattle.mill_model.specs.Starts.{IsStart};

use crate::asked::{Asked, ask};
use crate::leaves::refute;
use loss_table::LossTable;
use mill_model::{Kind, Limits, Mark, Mill, Plan, Shown, Starter, Step, Steps};
use mill_read::{read_orders, read_yard};
use slab_columns::Pool;
use slab_node::Tally;
use slab_start::FirstFit;
use slab_tree::Nodes;
use std::alloc::{AllocError, Global};
use std::test::Fail;

// Three orders, of which two fill a slab.
const THREE_PAIRS: &str = "1 10 1 3 5 1 5 1 5 1";

// Three orders of three colours, which fill a slab together.
const THREE_COLOURS: &str = "1 9 3 3 3 1 3 2 3 3";

// Five orders of five colours, of which three fill a slab.
const FIVE_COLOURS: &str = "1 9 5 5 3 1 3 2 3 3 3 4 3 5";

// The order is heavier than the slabs.
const HEAVY: &str = "1 4 1 1 5 1";

// Ten orders of four colours. First fit loses more than the best plan, which the search found only after its first split when
// the row was written.
const TEN: &str = "2 40 43 4 10 5 3 18 1 7 3 21 1 24 1 21 1 8 2 21 4 24 4 26 2";

// A mill by its files, the most colours on a slab, whether the question starts with the first-fit plan, and the node limit.
type Question = (&'static str, &'static str, u16, bool, u64);

// The nodes that were opened for a question, the turns that they took, and the masters that were solved.
#[derive(Clone, Copy, PartialEq, Eq, Debug)]
struct Work {
    opened: u64,
    turns: u64,
    solves: u64,
}

// What a question came to.
#[derive(Clone, Copy, PartialEq, Eq, Debug)]
enum Came {
    // The loss of the plan, the opened nodes, and whether each leaf of the tightened tree refutes less loss.
    Least(u32, u64, bool),
    // The opened nodes, and whether each leaf refutes every loss.
    NoPlan(u64, bool),
    // The opened nodes, and those of the open tree.
    Budget(u64, usize),
    // The files are no mill's, or the plan isn't legal.
    Nothing,
}

fn mill_of(alloc: Global, orders: &str, yard: &str, colours: u16) -> Option<Mill> {
    let mut mill = read_orders(alloc, orders.as_bytes()).ok()?;
    let yard = read_yard(alloc, &mill, yard.as_bytes()).ok()?;
    mill.put_yard(yard);
    mill.set_colour_limit(colours.clamp(1, 3));
    Some(mill)
}

// What a question without a count limit came to, with the counts of its run.
fn asked(
    alloc: Global,
    mill: &Mill,
    starts: bool,
    limit: u64,
) -> Result<(Asked, Work), AllocError> {
    let table = LossTable::new(alloc, mill)?;
    let mut pool = Pool::new(alloc, mill)?;
    let mut nodes = Nodes::new(limit.max(1));
    let mut tally = Tally::new();
    let best = start_of(alloc, mill, starts)?;
    let asked = ask(
        alloc, mill, &table, &mut pool, None, best, &mut nodes, &mut tally,
    )?;
    let work = Work {
        opened: nodes.opened(),
        turns: pool.turns(),
        solves: tally.stalls.solves(),
    };
    Ok((asked, work))
}

// The plan that a question starts with.
fn start_of(alloc: Global, mill: &Mill, starts: bool) -> Result<Option<Plan>, AllocError>
    ensures { IfOk result (λ best. IfSome best (IsStart mill.now None)) }
{
    if !starts {
        return Ok(None);
    }
    FirstFit::new().start(alloc, mill, None)
}

fn came_to(alloc: Global, question: Question) -> Result<Came, AllocError> {
    let (orders, yard, colours, starts, limit) = question;
    let Some(mill) = mill_of(alloc, orders, yard, colours) else {
        return Ok(Came::Nothing);
    };
    let (asked, work) = asked(alloc, &mill, starts, limit)?;
    let opened = work.opened;
    match asked {
        Asked::Least(plan, steps) => least(alloc, &mill, &plan, &steps, opened),
        Asked::NoPlan(steps) => {
            let every = Limits {
                loss: None,
                count: None,
            };
            let refuted = refute(alloc, &mill, every, steps.list())?;
            Ok(Came::NoPlan(opened, refuted))
        }
        Asked::Budget(tree) => Ok(Came::Budget(opened, tree.list().len())),
    }
}

fn least(
    alloc: Global,
    mill: &Mill,
    plan: &Plan,
    steps: &Steps,
    opened: u64,
) -> Result<Came, AllocError> {
    let Ok(sums) = plan.judge(mill) else {
        return Ok(Came::Nothing);
    };
    let less = loss_limit(i64::from(sums.loss) - 1);
    let refuted = refute(alloc, mill, less, steps.list())?;
    Ok(Came::Least(sums.loss, opened, refuted))
}

fn rows() -> [(Question, Came); 8] {
    [
        ((THREE_PAIRS, "0", 2, true, 3), Came::Least(5, 3, true)),
        ((THREE_PAIRS, "0", 2, true, 2), Came::Budget(1, 1)),
        ((HEAVY, "0", 2, false, 100), Came::NoPlan(1, true)),
        // two colours: a pair and a single order
        ((THREE_COLOURS, "0", 2, true, 100), Came::Least(9, 3, true)),
        // three colours: all on one slab; no loss is below none, which plain prices show
        ((THREE_COLOURS, "0", 3, true, 100), Came::Least(0, 1, true)),
        // one colour: no two orders on a slab, and prices show it at once
        ((THREE_COLOURS, "0", 1, true, 100), Came::Least(18, 1, true)),
        // a surplus slab from which all orders are barred changes nothing
        (
            (THREE_PAIRS, "1 10 3 1 1 2 1 3 1", 2, true, 100),
            Came::Least(5, 3, true),
        ),
        // nor does one on which the only order would fit
        ((HEAVY, "1 5 1 1 1", 2, false, 100), Came::NoPlan(1, true)),
    ]
}

#[test]
fn a_question_comes_to(rt: HostRuntime) -> Result<(), Fail> {
    for (question, came) in rows() {
        assert_eq!(rt; came_to(rt.alloc(), question)?, came, "{}", question.0);
    }
    Ok(())
}

// The number of nodes isn't fixed.
fn losses() -> [(Question, u32); 5] {
    [
        // no plan is handed in
        ((THREE_PAIRS, "0", 2, false, 100), 5),
        ((THREE_PAIRS, "1 10 1 1 1", 2, true, 100), 5),
        // three colours: two slabs; a sixth of each three orders covers them without loss
        ((FIVE_COLOURS, "0", 3, true, 1000), 3),
        // two colours: three slabs; a quarter of each pair covers them, and loses 7 and a half
        ((FIVE_COLOURS, "0", 2, true, 1000), 12),
        ((TEN, "0", 2, true, 1000), 28),
    ]
}

#[test]
fn each_leaf_refutes_less_loss(rt: HostRuntime) -> Result<(), Fail> {
    for (question, loss) in losses() {
        let holds = match came_to(rt.alloc(), question)? {
            Came::Least(least, _, refuted) => least == loss && refuted,
            _ => false,
        };
        assert!(rt; holds, "{}", question.0);
    }
    Ok(())
}

// The best plan stays, and the one split shows half of each pair of orders.
#[test]
fn one_split_shows_three_pairs(rt: HostRuntime) -> Result<(), Fail> {
    let alloc = rt.alloc();
    let holds = match mill_of(alloc, THREE_PAIRS, "0", 2) {
        Some(mill) => match &asked(alloc, &mill, true, 3)?.0 {
            Asked::Least(plan, steps) => {
                matches!(plan.place(), [0, 0, 1])
                    && steps.list().len() == 3
                    && are_three_pairs(steps.marks())
            }
            _ => false,
        },
        None => false,
    };
    assert!(rt; holds);
    Ok(())
}

fn are_three_pairs(marks: &[Mark]) -> bool {
    match marks {
        [Mark::Spread(shown)] => {
            shown.d() == 2
                && shown.shares().len() == 3
                && has_pair(shown, 0, 1)
                && has_pair(shown, 0, 2)
                && has_pair(shown, 1, 2)
        }
        _ => false,
    }
}

// Whether the cover has half of a new slab with these two orders.
fn has_pair(shown: &Shown, first: u16, second: u16) -> bool {
    shown.shares().iter().any(|share| {
        share.times() == 1
            && matches!(share.kind(), Kind::New(10))
            && matches!(share.orders(), [i, j] if *i == first && *j == second)
    })
}

// A leaf doesn't refute the loss of a plan that agrees with it, and a tree without its last leaf isn't whole.
#[test]
fn leaves_refute_no_more(rt: HostRuntime) -> Result<(), Fail> {
    let alloc = rt.alloc();
    let refuted = match mill_of(alloc, THREE_PAIRS, "0", 2) {
        Some(mill) => match &asked(alloc, &mill, true, 3)?.0 {
            Asked::Least(_, steps) => refuted(alloc, &mill, steps.list())?,
            _ => None,
        },
        None => None,
    };
    assert_eq!(rt; refuted, Some([true, false, false]));
    Ok(())
}

// Whether three steps refute less loss than the best plan's, its own loss, and less without the last step.
fn refuted(alloc: Global, mill: &Mill, steps: &[Step]) -> Result<Option<[bool; 3]>, AllocError> {
    if steps.len() != 3 {
        return Ok(None);
    }
    Ok(Some([
        refute(alloc, mill, loss_limit(4), steps)?,
        refute(alloc, mill, loss_limit(5), steps)?,
        refute(alloc, mill, loss_limit(4), &steps[..2])?,
    ]))
}

fn loss_limit(loss: i64) -> Limits {
    Limits {
        loss: Some(loss),
        count: None,
    }
}

// Three nodes took a turn each at least, and the root's cover came from a master. Where no slab holds an order, the prices are
// found without one, in one turn.
#[test]
fn turns_and_solves_are_counted(rt: HostRuntime) -> Result<(), Fail> {
    let pairs = worked(rt.alloc(), THREE_PAIRS, true)?;
    assert!(rt; pairs.turns >= 3 && pairs.solves >= 1);
    let heavy = worked(rt.alloc(), HEAVY, false)?;
    assert_eq!(rt;
        heavy,
        Work {
            opened: 1,
            turns: 1,
            solves: 0
        }
    );
    Ok(())
}

// The counts of a question with two colours and no yard.
fn worked(alloc: Global, orders: &str, starts: bool) -> Result<Work, AllocError> {
    match mill_of(alloc, orders, "0", 2) {
        Some(mill) => Ok(asked(alloc, &mill, starts, 100)?.1),
        None => Ok(Work {
            opened: 0,
            turns: 0,
            solves: 0,
        }),
    }
}
