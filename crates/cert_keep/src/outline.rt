//! The outline of an open tree, built from its lines.
ghost use Rattle.std.specs.Prelude.{◌≡◌, ◌++◌, ◌∷◌, [], OnOk};

use mill_model::{Ask, OpenTree};
use std::alloc::{AllocError, Global};
use std::marker::Model;

/// The outline so far: a question at each split, none at each end.
#[derive(Drop)]
pub(crate) struct Outline {
    list: Vec<Option<Ask>>,
}

impl Model for Outline {
    ghost use Rattle.std.specs.Prelude.{List, Option};
    ghost use Rattle.mill_model.specs.declared.ask.Ask.{Ask};

    ghost Value = { List (Option Ask) };

    ghost view = { λ o. o.list.items };
}

impl Outline {
    // Nothing.
    pub(crate) fn new(alloc: Global) -> Outline
        ensures { result ≡ [] }
    {
        Outline {
            list: Vec::new(alloc),
        }
    }

    // A question, or an end.
    pub(crate) fn add(&mut self, ask: Option<Ask>) -> Result<(), AllocError>
        ensures { OnOk result (self.new ≡ self.old ++ ask ∷ []) }
    {
        self.list.push(ask)?;
        Ok(())
    }

    // The open tree.
    pub(crate) fn into_open_tree(self) -> OpenTree
        ensures { result ≡ self }
    {
        OpenTree::new(self.list)
    }
}
