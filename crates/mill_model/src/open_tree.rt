//! Unfinished trees.
ghost use Rattle.std.specs.Prelude.{◌≡◌};

use crate::Ask;
use std::marker::Model;

/// The outline of an unfinished search tree in preorder: a question at each split, none at each end.
#[derive(Drop)]
pub struct OpenTree {
    list: Vec<Option<Ask>>,
}

impl Model for OpenTree {
    ghost use Rattle.std.specs.Prelude.{List, Option};
    ghost use Rattle.mill_model.specs.declared.ask.Ask.{Ask};

    ghost Value = { List (Option Ask) };

    ghost view = { λ t. t.list.items };
}

impl OpenTree {
    /// This outline.
    pub fn new(list: Vec<Option<Ask>>) -> OpenTree
        ensures { result ≡ list.items }
    {
        OpenTree { list }
    }

    /// The outline.
    pub fn list(&self) -> &[Option<Ask>]
        ensures { result.now ≡ self.now }
    {
        &self.list
    }
}
