//! The questions of a mill: the first one without a count limit, each other one for fewer new slabs than the plan before has.

ghost use Rattle.std.specs.Prelude.{◌≡◌, ◌≤◌};
ghost use Rattle.mill_model.specs.Limits.{number_of};
ghost use Rattle.slab_master.specs.Given.{IsSmall};

use loss_table::LossTable;
use mill_model::{Mill, Plan, Starter, Steps, Sums};
use question_rows::asked::{Asked, ask};
use slab_columns::Pool;
use slab_node::Tally;
use slab_start::FirstFit;
use slab_tree::Nodes;
use std::alloc::{AllocError, Global};
use std::io;

// A mill has at most so many count limits that a question may have.
const MOST_QUESTIONS: u16 = 252;

// What a question came to, with how many splits its tightened tree has.
#[derive(Clone, Copy, Debug)]
enum Answer {
    Least(Sums, usize),
    NoPlan(usize),
    Budget,
}

// What the questions of a mill share.
#[derive(Drop)]
struct Asking {
    table: LossTable,
    pool: Pool,
    nodes: Nodes,
    tally: Tally,
}

/// Asks the questions one after another, each with a tree of at most so many nodes, and prints a line for each and one for all.
pub fn ask_all<R: AllocGlobal + Print>(rt: &R, mill: &Mill, limit: u64) -> io::Result<()>
    requires { 1 ≤ limit }
{
    let alloc = rt.alloc();
    let mut asking = Asking {
        table: LossTable::new(alloc, mill)?,
        pool: Pool::new(alloc, mill)?,
        nodes: Nodes::new(limit),
        tally: Tally::new(),
    };
    let mut count = None;
    'limits: for _ in 0..MOST_QUESTIONS {
        let before = asking.nodes.opened();
        let answer = ask_within(alloc, mill, count, &mut asking)?;
        print_answer(
            rt,
            count,
            answer,
            asking.nodes.opened().saturating_sub(before),
        )?;
        match answer {
            Answer::Least(sums, _) => count = below(sums),
            Answer::NoPlan(_) | Answer::Budget => break 'limits,
        }
    }
    print_counts(rt, &asking)
}

// One question, with the first-fit plan within its count limit as the best one so far.
fn ask_within(
    alloc: Global,
    mill: &Mill,
    count: Option<i64>,
    asking: &mut Asking,
) -> Result<Answer, AllocError>
    requires count { IsSmall (number_of count) }
    requires sizes { asking.old.table ≡ mill.now.sizes }
    requires pool { asking.old.pool.mill ≡ mill.now }
    ensures sizes { asking.new.table ≡ mill.now.sizes }
    ensures pool { asking.new.pool.mill ≡ mill.now }
{
    let best = FirstFit::new().start(alloc, mill, count)?;
    match ask(
        alloc,
        mill,
        &asking.table,
        &mut asking.pool,
        count,
        best,
        &mut asking.nodes,
        &mut asking.tally,
    )? {
        Asked::Least(plan, steps) => Ok(least(mill, &plan, &steps)),
        Asked::NoPlan(steps) => Ok(Answer::NoPlan(steps.marks().len())),
        Asked::Budget(_tree) => Ok(Answer::Budget),
    }
}

// The answer of a plan; a plan that isn't legal can't come.
fn least(mill: &Mill, plan: &Plan, steps: &Steps) -> Answer {
    match plan.judge(mill) {
        Ok(sums) => Answer::Least(sums, steps.marks().len()),
        Err(_) => Answer::Budget,
    }
}

// The count limit after a plan.
fn below(sums: Sums) -> Option<i64>
    ensures { IsSmall (number_of result) }
{
    Some(i64::from(sums.count) - 1)
}

fn print_answer<R: Print>(
    rt: &R,
    count: Option<i64>,
    answer: Answer,
    nodes: u64,
) -> io::Result<()> {
    match count {
        Some(limit) => print!(rt; "limit {limit} ")?,
        None => print!(rt; "limit - ")?,
    }
    match answer {
        Answer::Least(sums, splits) => {
            println!(rt;
                "least {} {} nodes {nodes} splits {splits}",
                sums.loss, sums.count
            )
        }
        Answer::NoPlan(splits) => println!(rt; "noplan nodes {nodes} splits {splits}"),
        Answer::Budget => println!(rt; "budget nodes {nodes}"),
    }
}

fn print_counts<R: Print>(rt: &R, asking: &Asking) -> io::Result<()> {
    let tally = &asking.tally;
    println!(rt;
        "nodes {} bare {} turns {} solves {} wides {} stalls {} pivots {} fulls {}",
        asking.nodes.opened(),
        asking.nodes.bare(),
        asking.pool.turns(),
        tally.stalls.solves(),
        tally.wides.count(),
        tally.stalls.count(),
        tally.stalls.pivots(),
        tally.fulls.count()
    )
}
