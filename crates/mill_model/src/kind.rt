//! What a slab of a plan is: new, or of the yard.
ghost use Rattle.std.specs.Prelude.{◌≡◌};
ghost use Rattle.mill_model.specs.Columns.{is_old};
ghost use Rattle.mill_model.specs.Plans.{is_new as is_new_slab};

/// A slab of a plan: a new one, by its size, or a surplus slab, by its number in the yard.
#[derive(Clone, Copy, Debug, PartialEq, Eq)]
pub enum Kind {
    /// A new slab of this size.
    New(u16),
    /// The surplus slab of this number in the yard.
    Old(u16),
}

impl Kind {
    /// Whether this is a new slab.
    pub fn is_new(self) -> bool
        ensures { result ≡ is_new_slab self }
    {
        match self {
            Kind::New(_) => true,
            Kind::Old(_) => false,
        }
    }

    /// Whether this is that surplus slab, by its number in the yard.
    pub fn is_surplus(self, slab: u16) -> bool
        ensures { result ≡ is_old slab self }
    {
        match self {
            Kind::New(_) => false,
            Kind::Old(other) => other == slab,
        }
    }
}
