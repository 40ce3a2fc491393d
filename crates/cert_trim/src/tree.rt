//! The trimmed tree of a finished one.
ghost use Rattle.std.specs.Prelude.{◌≡◌, [], IfOk, OnOk};
ghost use Rattle.mill_model.specs.Marks.{IsMarkedRefutation};
ghost use Rattle.cert_trim.specs.Certificates.{AreTrimmedSteps};
ghost use Rattle.cert_trim.specs.Walks.{AreOfTree, AreTrimmedTo, IsFor};

use crate::walk::Walk;
use mill_model::{Limits, Mill, Steps};
use std::alloc::{AllocError, Global};
use tree_nodes::{Node, nodes_of_steps, steps_of_nodes};

impl Walk {
    // Trims a finished tree, given by its steps and marks.
    pub(crate) fn trim_steps(
        &mut self,
        alloc: Global,
        mill: &Mill,
        limits: Limits,
        steps: Steps,
    ) -> Result<Steps, AllocError>
        requires walk { IsFor mill.now self.old }
        requires tree { IsMarkedRefutation mill.now limits [] steps }
        ensures walk { OnOk result (IsFor mill.now self.new) }
        ensures trimmed { IfOk result (AreTrimmedSteps mill.now limits steps) }
    {
        let nodes = nodes_of_steps(alloc, steps)?;
        let trimmed = self.trim_tree(alloc, mill, limits, nodes)?;
        steps_of_nodes(alloc, trimmed)
    }

    // Trims a finished tree for the limits: where a leaf at or below a node has prices that refute the limits under the node's
    // decisions, the first such leaf in preorder stands for all there. It tests prices at most once for each node of the tree,
    // and none where a cover is shown.
    fn trim_tree(
        &mut self,
        alloc: Global,
        mill: &Mill,
        limits: Limits,
        nodes: Vec<Node>,
    ) -> Result<Vec<Node>, AllocError>
        requires walk { IsFor mill.now self.old }
        requires tree { AreOfTree mill.now limits nodes.items }
        ensures walk { OnOk result (IsFor mill.now self.new) }
        ensures trimmed { IfOk result (λ new. AreTrimmedTo mill.now limits nodes.items new.items) }
    {
        self.restart();
        for node in nodes {
            match node {
                Node::Closed(prices) => self.leaf(mill, limits, prices)?,
                Node::Branched(ask, mark) => self.split(ask, mark)?,
            }
        }
        Ok(self.take_written(alloc))
    }
}
