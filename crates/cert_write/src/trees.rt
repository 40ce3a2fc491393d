// Finished trees: steps in preorder, with a mark before each question.
ghost use Rattle.std.specs.Prelude.{◌≡◌, ◌∷◌, []};
ghost use Rattle.cert_text.specs.Lines.{leaf_line, steps_lines, tree_lines};
ghost use Rattle.cert_text.specs.Texts.{lines_text};
ghost use Rattle.cert_write.specs.Left.{left_after};
ghost use Rattle.line_out.specs.Puts.{Puts};

use crate::marks::put_first_mark;
use crate::numbers::put_numbers;
use crate::questions::put_ask;
use line_out::{End, LineOut};
use mill_model::{Ask, Mark, Prices, Step, Steps, Version};

// The lines of a finished tree.
pub fn put_tree<D, E: End<D>>(out: &mut LineOut<E>, desk: &mut D, version: Version, tree: &Steps)
    ensures { Puts E.sends (lines_text (tree_lines version tree.now)) (out.old, E.seen desk.old) (out.new, E.seen desk.new) }
{
    put_steps(out, desk, version, tree.list(), tree.marks());
}

fn put_steps<D, E: End<D>>(
    out: &mut LineOut<E>,
    desk: &mut D,
    version: Version,
    steps: &[Step],
    marks: &[Mark],
)
    ensures { Puts E.sends (lines_text (steps_lines version steps.now marks.now)) (out.old, E.seen desk.old) (out.new, E.seen desk.new) }
{
    let mut left = marks;
    for step in steps {
        put_step(out, desk, version, step, left);
        left = after(step, left);
    }
}

// A step, with the first mark that is left where it is a question.
fn put_step<D, E: End<D>>(
    out: &mut LineOut<E>,
    desk: &mut D,
    version: Version,
    step: &Step,
    left: &[Mark],
)
    ensures { Puts E.sends (lines_text (steps_lines version (step.now ∷ []) left.now)) (out.old, E.seen desk.old) (out.new, E.seen desk.new) }
{
    match step {
        Step::Leaf(prices) => put_leaf(out, desk, prices),
        Step::Pair(first, second) => {
            put_first_mark(out, desk, version, left);
            put_ask(out, desk, Ask::Pair(*first, *second));
        }
        Step::Put(order, slab) => {
            put_first_mark(out, desk, version, left);
            put_ask(out, desk, Ask::Put(*order, *slab));
        }
    }
}

// The marks that are left after a step: a question takes one.
fn after<'a>(step: &Step, left: &'a [Mark]) -> &'a [Mark]
    ensures { result.now ≡ left_after step.now left.now }
{
    match (step, left) {
        (Step::Leaf(_), _) => left,
        (_, [_, rest @ ..]) => rest,
        (_, []) => left,
    }
}

fn put_leaf<D, E: End<D>>(out: &mut LineOut<E>, desk: &mut D, prices: &Prices)
    ensures { Puts E.sends (lines_text (leaf_line prices.now ∷ [])) (out.old, E.seen desk.old) (out.new, E.seen desk.new) }
{
    out.put(desk, b"leaf");
    out.signed_number(desk, prices.lambda());
    out.signed_number(desk, prices.mu());
    put_numbers(out, desk, prices.pi());
    put_numbers(out, desk, prices.sigma());
    out.end_line(desk);
}
