//! What joins nodes, steps with marks, and trees. Each law is the contract of a function that does nothing.
ghost use Rattle.tree_nodes.specs.Laws.{NodesComeBack, StepsComeBack, NodesOfTrees, StepsOfTrees};

/// Nodes become steps with marks and come back as they were, and so do steps with a mark for each question.
pub fn nodes_and_steps_are_one()
    ensures nodes { NodesComeBack }
    ensures steps { StepsComeBack }
{}

/// The steps and marks of a tree, joined, are its nodes in preorder, and its nodes are its steps and marks.
pub fn trees_are_their_nodes()
    ensures nodes { NodesOfTrees }
    ensures steps { StepsOfTrees }
{}
