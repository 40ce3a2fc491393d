//! What a basis shows.

ghost use Rattle.std.specs.Prelude.{ℕ, ◌≡◌, ◌<◌, ◌≤◌, vec_len, length, IfOk};

use crate::search::basic::Basic;
use crate::search::basis::Basis;
use crate::search::whole_row::WholeRow;
use slab_frac::{Frac, Wides};
use std::alloc::{AllocError, Global};

// Writes the right side of a row, if the place is there.
fn put_right(spread: &mut [Frac], place: usize, row: &WholeRow, wides: &mut Wides)
    ensures { wides.old ≤ wides.new }
{
    if place < spread.len() {
        let right = row.numbers().len().saturating_sub(1);
        spread[place] = row.fraction(right, wides);
    }
}

impl Basis {
    // The multipliers of so many given columns: the right sides of the rows in which they are basic.
    pub(crate) fn spread(
        &self,
        alloc: Global,
        working: &[WholeRow],
        count: usize,
        wides: &mut Wides,
    ) -> Result<Vec<Frac>, AllocError>
        ensures count { IfOk result (λ v. vec_len v ≡ count) }
        ensures grows { wides.old ≤ wides.new }
    {
        let mut spread = Vec::new(alloc);
        spread.resize(count, Frac::whole(0))?;
        for (row, basic) in working.iter().zip(&self.basics) {
            if let Basic::Column(place) = basic {
                put_right(&mut spread, *place, row, wides);
            }
        }
        Ok(spread)
    }

    // The prices of so many rows: less the reduced costs of the unit columns.
    pub(crate) fn prices(
        &self,
        alloc: Global,
        count: usize,
        wides: &mut Wides,
    ) -> Result<Vec<Frac>, AllocError>
        ensures count { IfOk result (λ v. vec_len v ≡ count) }
        ensures grows { wides.old ≤ wides.new }
    {
        let mut prices = Vec::new(alloc);
        for i in 0..count {
            prices.push(self.reduced.opposite(i, wides))?;
        }
        Ok(prices)
    }
}
