//! The different colours on one slab.
ghost use Rattle.std.specs.Prelude.{◌≡◌, ◌++◌, ◌∷◌, [], ◌≤◌, false, cond, length};
ghost use Rattle.std.specs.Bool.{OnTrue, OnFalse};
ghost use Rattle.mill_model.specs.Mill.{most_colour_limit};
ghost use Rattle.mill_model.specs.Columns.{has};

use mill_model::MOST_COLOUR_LIMIT;
use std::marker::Model;

/// Different colours, in the order in which they came: never more than one slab may ever have.
#[derive(Drop)]
pub(crate) struct Colours {
    list: [u16; MOST_COLOUR_LIMIT as usize],
    count: usize,
}

impl Model for Colours {
    ghost use Rattle.std.specs.Prelude.{ℕ, List, ◌≤◌, take};
    ghost use Rattle.mill_model.specs.Mill.{most_colour_limit};

    ghost Value = { List ℕ };

    ghost view = { λ c. take c.count c.list };

    ghost invariant = { λ c. c.count ≤ most_colour_limit };
}

impl Colours {
    // No colour.
    pub(crate) fn new() -> Colours
        ensures { result ≡ [] }
    {
        Colours {
            list: [0; MOST_COLOUR_LIMIT as usize],
            count: 0,
        }
    }

    // Adds a colour, unless it would be one more than so many.
    pub(crate) fn add(&mut self, colour: u16, limit: u16) -> bool
        requires { limit ≤ most_colour_limit }
        ensures added { OnTrue result (self.new
            ≡ cond (has self.old colour) self.old (self.old ++ colour ∷ [])) }
        ensures few { length self.old ≤ limit → length self.new ≤ limit }
        ensures full { OnFalse result ((has self.old colour ≡ false) × (limit ≤ length self.old)) }
    {
        if self.list[..self.count].contains(&colour) {
            return true;
        }
        if self.count >= usize::from(limit) {
            return false;
        }
        self.list[self.count] = colour;
        self.count += 1;
        true
    }
}
