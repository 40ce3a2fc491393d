//! What a line of a script asks for, and why one can't stand.
ghost use Rattle.std.specs.Prelude.{◌≡◌};

use mill_model::Order;
use std::marker::Model;
use thiserror::Error;

/// Sizes of slabs, in the order in which they were given.
#[derive(Drop)]
pub struct SizeList {
    sizes: Vec<u16>,
}

impl Model for SizeList {
    ghost use Rattle.std.specs.Prelude.{List, ℕ};

    ghost Value = { List ℕ };

    ghost view = { λ s. s.sizes.items };
}

impl SizeList {
    /// These sizes.
    pub fn new(sizes: Vec<u16>) -> SizeList
        ensures { result ≡ sizes.items }
    {
        SizeList { sizes }
    }

    /// The sizes.
    pub fn into_sizes(self) -> Vec<u16>
        ensures { result.items ≡ self }
    {
        self.sizes
    }
}

/// What a line of a script asks for. Orders are numbered from 0 here, and from 1 in a script.
#[derive(Drop)]
pub enum Line {
    /// `sizes u..`: the mill casts these sizes, 1 to 100 of them.
    Sizes(SizeList),
    /// `add w c`: one more order, the last.
    Add(Order),
    /// `drop i`: the order goes, and the later ones move up by one.
    Remove(u16),
    /// `yard u..`: the yard has these surplus slabs, at most 40.
    Yard(SizeList),
    /// `front`: the Pareto front is to be said.
    Front,
}

/// Why a line of a script can't stand: the first rule that it breaks.
#[derive(Clone, Copy, Debug, PartialEq, Eq, Error)]
pub enum Why {
    /// It has no line feed, or is none of the lines of a script.
    #[error("this is no line of a script")]
    Spelling,
    /// The first line isn't `sizes`, or a later one is.
    #[error("this line can't stand here")]
    Expect,
    /// A number is outside its range, or there are too few or too many.
    #[error("a number is out of range")]
    Range,
    /// There are as many orders as a mill may have.
    #[error("there are too many orders")]
    Full,
}
