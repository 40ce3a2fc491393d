//! The nodes of an old tree, read once in preorder.

ghost use Rattle.std.specs.Prelude.{◌≡◌, ◌∷◌, [], IfSome, IfNone};
ghost use Rattle.slab_tree.specs.Remainders.{after_trees};

use crate::Node;
use std::marker::Model;

// The nodes that are left.
#[derive(Drop)]
pub(crate) struct Rest {
    // The next one is the last.
    nodes: Vec<Node>,
}

impl Model for Rest {
    ghost use Rattle.std.specs.Prelude.{List, reverse};
    ghost use Rattle.slab_tree.specs.declared.node.Node.{Node};

    ghost Value = { List Node };

    ghost view = { λ r. reverse r.nodes.items };
}

impl Rest {
    // All of these nodes.
    pub(crate) fn new(mut nodes: Vec<Node>) -> Rest
        ensures { result ≡ nodes.items }
    {
        nodes.reverse();
        Rest { nodes }
    }

    // The next node.
    pub(crate) fn next(&mut self) -> Option<Node>
        ensures some { IfSome result (λ node. self.old ≡ node ∷ self.new) }
        ensures none { IfNone result ((self.old ≡ []) × (self.new ≡ [])) }
    {
        self.nodes.pop()
    }

    // Passes over the two trees that come next.
    pub(crate) fn pass_two(&mut self)
        ensures { self.new ≡ after_trees 2 self.old }
    {
        let _left = self.nodes.len();
        let mut trees: u64 = 2;
        while trees > 0 {
            match self.next() {
                Some(Node::Closed(_)) => trees -= 1,
                Some(Node::Branched(_, _)) => trees += 1,
                None => return,
            }
        }
    }
}
