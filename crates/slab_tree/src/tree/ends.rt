//! What a tree becomes once its run has ended: steps, or the outline of an unfinished tree.

ghost use Rattle.std.specs.Prelude.{ℕ, ◌≡◌, ◌≤◌, ◌++◌, ◌∷◌, [], IfOk, OnOk, None, length, map, replicate};
ghost use Rattle.mill_model.specs.declared.limits.Limits.{Limits};
ghost use Rattle.mill_model.specs.Mill.{Mill};
ghost use Rattle.mill_model.specs.Trees.{step_of as step_of_ask};
ghost use Rattle.slab_tree.specs.Marking.{HoldsCover, ShowsCoverUnlessBare};
ghost use Rattle.slab_tree.specs.Searches.{IsRefused, bare_count, opening_of, outline_of};
ghost use Rattle.slab_tree.specs.Standing.{IsWhole};
ghost use Rattle.slab_tree.specs.Steps.{step_of_node, IsLeanRefutation, IsTightRefutation};
ghost use Rattle.slab_tree.specs.Unfinished.{IsCutTree, ask_of, marks_in};

use super::Tree;
use crate::Node;
use mill_model::{Ask, Mark, OpenTree, Step, Steps};
use std::alloc::{AllocError, Global};

impl Tree {
    /// The finished tree: its steps and marks in preorder. Its only error is want of memory.
    pub fn steps(self, alloc: Global) -> Result<Steps, AllocError>
        ensures steps { IfOk result (λ s. s.steps ≡ map step_of_node self.nodes) }
        ensures marks { IfOk result (λ s. s.marks ≡ marks_in self.nodes) }
        ensures lean { IfOk result (λ s. (m : Mill) (opening limits : Limits) → IsWhole m (HoldsCover m opening) limits self.nodes → IsLeanRefutation m limits s.steps) }
        ensures tight { IfOk result (λ s. (m : Mill) (limits : Limits) → IsWhole m (ShowsCoverUnlessBare m limits) limits self.nodes → IsTightRefutation m limits s) }
    {
        let (steps, marks) = self.parts(alloc)?;
        Ok(Steps::new(steps, marks))
    }

    fn parts(self, alloc: Global) -> Result<(Vec<Step>, Vec<Mark>), AllocError>
        ensures steps { IfOk result (λ parts. parts.0.items ≡ map step_of_node self.nodes) }
        ensures marks { IfOk result (λ parts. parts.1.items ≡ marks_in self.nodes) }
    {
        let mut steps = Vec::new(alloc);
        let mut marks = Vec::new(alloc);
        for node in self.nodes {
            match node {
                Node::Closed(prices) => steps.push(Step::Leaf(prices))?,
                Node::Branched(ask, mark) => {
                    steps.push(step_of(ask))?;
                    marks.push(mark)?;
                }
            }
        }
        Ok((steps, marks))
    }

    /// The unfinished tree, as a run leaves it that ends with Budget: its questions, and an end for each node that isn't split. Its
    /// only error is want of memory.
    pub fn open_tree(self, alloc: Global) -> Result<OpenTree, AllocError>
        requires { length self.nodes ≤ self.opened }
        ensures outline { IfOk result (λ list. list ≡ outline_of self) }
        ensures cut { IfOk result (λ list. (m : Mill) (limit : ℕ) (refused : IsRefused m limit self) → IsCutTree m (opening_of self) limit (bare_count self.nodes) refused.bare self.path list) }
    {
        let list = self.outline(alloc)?;
        Ok(OpenTree::new(list))
    }

    fn outline(&self, alloc: Global) -> Result<Vec<Option<Ask>>, AllocError>
        requires { length self.now.nodes ≤ self.now.opened }
        ensures { IfOk result (λ list. list.items ≡ outline_of self.now) }
    {
        let mut list = asks_of(alloc, &self.nodes)?;
        add_ends(&mut list, self.opened - self.nodes.len() as u64)?;
        Ok(list)
    }
}

fn asks_of(alloc: Global, nodes: &[Node]) -> Result<Vec<Option<Ask>>, AllocError>
    ensures { IfOk result (λ list. list.items ≡ map ask_of nodes.now) }
{
    nodes.iter().map(ask_of).collect(alloc)
}

fn add_ends(list: &mut Vec<Option<Ask>>, count: u64) -> Result<(), AllocError>
    ensures { OnOk result (list.new.items ≡ list.old.items ++ replicate count None) }
{
    'ends: for _ in 0..count {
        list.push(None)?;
    }
    Ok(())
}

// A question as a step.
fn step_of(ask: Ask) -> Step
    ensures { result ≡ step_of_ask ask }
{
    match ask {
        Ask::Pair(i, j) => Step::Pair(i, j),
        Ask::Put(o, s) => Step::Put(o, s),
    }
}

// The question of a node.
fn ask_of(node: &Node) -> Option<Ask>
    ensures { result ≡ ask_of node.now }
{
    match node {
        Node::Closed(_) => None,
        Node::Branched(ask, _) => Some(*ask),
    }
}
