//! From steps and marks to nodes, and back.
ghost use Rattle.std.specs.Prelude.{◌≡◌, IfOk, drop, map};
ghost use Rattle.std.specs.Vec.Iter.{into_iter_items};
ghost use Rattle.mill_model.specs.Trees.{step_of as step_of_ask};
ghost use Rattle.tree_nodes.specs.Nodes.{first_mark, joined, marks_in, step_of_node, steps_in};

use crate::Node;
use mill_model::{Ask, Mark, Step, Steps};
use std::alloc::{AllocError, Global};
use std::vec::IntoIter;

/// The nodes of steps, each question with its mark. The only error is want of memory.
pub fn nodes_of_steps(alloc: Global, steps: Steps) -> Result<Vec<Node>, AllocError>
    ensures { IfOk result (λ nodes. nodes.items ≡ joined steps.steps steps.marks) }
{
    let (steps, marks) = steps.into_parts();
    let mut marks = marks.into_iter();
    let mut nodes = Vec::new(alloc);
    for step in steps {
        let node = match step {
            Step::Leaf(prices) => Node::Closed(prices),
            Step::Pair(first, second) => Node::Branched(
                Ask::Pair(first, second),
                next_mark(&mut marks),
            ),
            Step::Put(order, slab) => Node::Branched(Ask::Put(order, slab), next_mark(&mut marks)),
        };
        nodes.push(node)?;
    }
    Ok(nodes)
}

// Takes the first mark that is left.
fn next_mark(marks: &mut IntoIter<Mark>) -> Mark
    ensures mark { result ≡ first_mark (into_iter_items marks.old) }
    ensures left { into_iter_items marks.new ≡ drop 1 (into_iter_items marks.old) }
{
    match marks.next() {
        Some(mark) => mark,
        None => Mark::Plain,
    }
}

/// The nodes as steps with a mark for each question. The only error is want of memory.
pub fn steps_of_nodes(alloc: Global, nodes: Vec<Node>) -> Result<Steps, AllocError>
    ensures { IfOk result (λ steps. steps ≡ steps_in nodes.items) }
{
    let (steps, marks) = parts(alloc, nodes)?;
    Ok(Steps::new(steps, marks))
}

fn parts(alloc: Global, nodes: Vec<Node>) -> Result<(Vec<Step>, Vec<Mark>), AllocError>
    ensures steps { IfOk result (λ parts. parts.0.items ≡ map step_of_node nodes.items) }
    ensures marks { IfOk result (λ parts. parts.1.items ≡ marks_in nodes.items) }
{
    let mut steps = Vec::new(alloc);
    let mut marks = Vec::new(alloc);
    for node in nodes {
        match node {
            Node::Closed(prices) => steps.push(Step::Leaf(prices))?,
            Node::Branched(ask, mark) => {
                steps.push(step_of(ask))?;
                marks.push(mark)?;
            }
        }
    }
    Ok((steps, marks))
}

// A question as a step.
fn step_of(ask: Ask) -> Step
    ensures { result ≡ step_of_ask ask }
{
    match ask {
        Ask::Pair(first, second) => Step::Pair(first, second),
        Ask::Put(order, slab) => Step::Put(order, slab),
    }
}
