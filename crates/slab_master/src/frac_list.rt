ghost use Rattle.std.specs.Prelude.{◌≡◌};

use slab_frac::Frac;
use std::marker::Model;

/// A list of fractions.
#[derive(Drop)]
pub struct FracList {
    list: Vec<Frac>,
}

impl Model for FracList {
    ghost use Rattle.std.specs.Prelude.{List};
    ghost use Rattle.slab_frac.specs.Fraction.{Fraction};

    ghost Value = { List Fraction };

    ghost view = { λ l. l.list.items };
}

impl FracList {
    /// The list of a vector's fractions.
    pub fn new(list: Vec<Frac>) -> FracList
        ensures { result ≡ list.items }
    {
        FracList { list }
    }

    /// The fractions, in order.
    pub fn list(&self) -> &[Frac]
        ensures { result.now ≡ self.now }
    {
        self.list.as_slice()
    }
}
