// Names that only clauses read, so that they take no memory.
ghost use Rattle.std.specs.Prelude.{◌≡◌, ℕ, List, [], ◌∷◌, ◌++◌};
ghost use Rattle.std.specs.Borrow.{ftrue};

use std::marker::{Model, PhantomData};

/// Names in order, as clauses see them: `names`. It has no bytes, and its methods do nothing at run time.
#[derive(Drop)]
pub struct Noted {
    marker: PhantomData<bool>,
    pub ghost names: { List (List ℕ) },
}

impl Model for Noted {
    ghost also_owns = { λ _. ftrue };
}

impl Noted {
    /// No name.
    pub fn none() -> Noted
        ensures { result.names ≡ [] }
    {
        Noted {
            marker: PhantomData,
        }
    }

    /// These names, and this one after them.
    pub fn and(&self, name: &str) -> Noted
        ensures { result.names ≡ self.now.names ++ (name.now ∷ []) }
    {
        let _ = name;
        Noted {
            marker: PhantomData,
        }
    }
}
