//! The steps of a search tree.
ghost use Rattle.std.specs.Prelude.{◌≡◌};

use crate::{Mark, Prices};
use std::marker::Model;

/// One step of a search tree in preorder: a question, followed by the tree for yes and then the tree for no; or a leaf, whose
/// prices refute the limits under the decisions above it.
#[derive(Drop)]
pub enum Step {
    /// Do these two orders lie on one slab?
    Pair(u16, u16),
    /// Does this order lie on this surplus slab?
    Put(u16, u16),
    /// The prices of a leaf.
    Leaf(Prices),
}

/// A list of steps, as of a search tree in preorder, with a mark for each of its questions, in the same order.
#[derive(Drop)]
pub struct Steps {
    steps: Vec<Step>,
    marks: Vec<Mark>,
}

impl Model for Steps {
    ghost use Rattle.mill_model.specs.Marks.{MarkedSteps, HasOneMarkEach};

    ghost Value = { MarkedSteps };

    ghost view = { λ s. record { steps = s.steps.items; marks = s.marks.items } };

    ghost invariant = { λ s. HasOneMarkEach (record { steps = s.steps.items; marks = s.marks.items }) };
}

impl Steps {
    ghost use Rattle.mill_model.specs.Marks.{HasOneMarkEach};

    /// These steps and these marks, in this order. There are as many marks as questions.
    pub fn new(steps: Vec<Step>, marks: Vec<Mark>) -> Steps
        requires { HasOneMarkEach (record { steps = steps.items; marks = marks.items }) }
        ensures { result ≡ record { steps = steps.items; marks = marks.items } }
    {
        Steps { steps, marks }
    }

    /// The steps in order.
    pub fn list(&self) -> &[Step]
        ensures value { result.now ≡ self.now.steps }
        ensures marked { HasOneMarkEach self.now }
    {
        &self.steps
    }

    /// The marks of the questions in order.
    pub fn marks(&self) -> &[Mark]
        ensures value { result.now ≡ self.now.marks }
        ensures marked { HasOneMarkEach self.now }
    {
        &self.marks
    }

    /// The steps, and the marks of the questions.
    pub fn into_parts(self) -> (Vec<Step>, Vec<Mark>)
        ensures steps { result.0.items ≡ self.steps }
        ensures marks { result.1.items ≡ self.marks }
        ensures marked { HasOneMarkEach self }
    {
        (self.steps, self.marks)
    }
}
