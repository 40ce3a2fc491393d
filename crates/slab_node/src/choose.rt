//! What a cover comes to: a question to split on, or a plan.
ghost use Rattle.std.specs.Prelude.{◌≡◌, ◌≤◌, IfOk};
ghost use Rattle.mill_model.specs.Decisions.{AreAsks};
ghost use Rattle.slab_decide.specs.Decided.{AreConsistent};
ghost use Rattle.slab_counter.specs.Counter.{Rose};
ghost use Rattle.slab_relax.specs.AtNodes.{IsCoverAt};
ghost use Rattle.slab_node.specs.Choices.{IfSplit, IfWhole};
ghost use Rattle.slab_node.specs.AtNodes.{IsOpenAskAt, IsInBoxAt};
ghost use Rattle.slab_node.specs.Turns.{IsFirstPartial};

use crate::Cover;
use crate::multiples::Multiples;
use crate::wholes::Wholes;
use mill_model::{Ask, Plan};
use slab_columns::Pool;
use slab_frac::Wides;
use slab_relax::Node;
use std::alloc::{AllocError, Global};

/// What comes of a cover.
#[derive(Drop)]
pub(crate) enum Choice {
    /// A question that doesn't follow.
    Split(Ask),

    /// The plan of a cover that answers each question by yes or no.
    Whole(Plan),
}

// The first pair that the cover answers in part, else the first such put, else the plan of its groups. Where its multipliers
// leave the range of whole numbers the question is the one handed in.
pub(crate) fn choose(
    alloc: Global,
    node: &Node<'_>,
    pool: &Pool,
    cover: &Cover,
    undecided: Ask,
    wides: &mut Wides,
) -> Result<Choice, AllocError>
    requires mill { pool.now.mill ≡ node.now.mill.now }
    requires cover { IsCoverAt node.now pool.now.columns cover.now }
    requires question { IsOpenAskAt node.now undecided }
    requires asks { AreAsks node.now.mill.now node.now.decisions.now.list }
    requires consistent { AreConsistent node.now.decisions.now.list }
    ensures split { IfOk result (λ c. IfSplit c (IsOpenAskAt node.now)) }
    ensures whole { IfOk result (λ c. IfWhole c (IsInBoxAt node.now)) }
    ensures first { (Rose wides.old wides.new → ⊥) → IfOk result (λ c. IfSplit c
        (IsFirstPartial node.now.mill.now pool.now.columns cover.now)) }
    ensures grows { wides.old ≤ wides.new }
{
    let Some(multiples) = Multiples::new(alloc, cover.list(), wides)? else {
        return Ok(Choice::Split(undecided));
    };
    let wholes = Wholes {
        node: *node,
        pool,
        cover: cover.list(),
        times: &multiples.times,
        whole: multiples.whole,
    };
    match wholes.partial_ask(alloc)? {
        Some(ask) => Ok(Choice::Split(ask)),
        None => Ok(Choice::Whole(wholes.plan(alloc)?)),
    }
}
