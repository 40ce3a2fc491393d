//! Which columns were basic last, so that a node's master begins with them. It changes no claim.
ghost use Rattle.std.specs.Prelude.{◌≡◌, ℕ, ◌<◌, IfOk, All, length};
ghost use Rattle.slab_columns.specs.Recency.{AreBelow};
ghost use Rattle.slab_relax.specs.Masters.{IsRestricted};

use crate::Node;
use crate::restricted::Restricted;
use slab_columns::{ColId, Pool};
use std::alloc::{AllocError, Global};

// The place of each of so many columns in a list of them, and a number past all places for the others.
fn places_of(alloc: Global, ids: &[ColId], count: usize) -> Result<Vec<usize>, AllocError>
    ensures { IfOk result (λ places. length places.items ≡ count) }
{
    let mut places = vec![in alloc; usize::MAX; count]?;
    for (place, id) in ids.iter().enumerate() {
        if let Some(slot) = places.get_mut(id.0 as usize) {
            *slot = place;
        }
    }
    Ok(places)
}

// The places of these columns, in their order.
fn likely_of(alloc: Global, recent: &[ColId], places: &[usize]) -> Result<Vec<usize>, AllocError>
    requires { AreBelow (length places.now) recent.now }
{
    let mut likely = Vec::with_capacity(alloc, recent.len())?;
    for id in recent {
        likely.push(places[id.0 as usize])?;
    }
    Ok(likely)
}

// The columns at these places.
fn ids_at(alloc: Global, ids: &[ColId], places: &[usize]) -> Result<Vec<ColId>, AllocError>
    requires { All (λ place. place < length ids.now) places.now }
    ensures { IfOk result (λ there. (n : ℕ) → AreBelow n ids.now → AreBelow n there.items) }
{
    let mut there = Vec::with_capacity(alloc, places.len())?;
    for place in places {
        there.push(ids[*place])?;
    }
    Ok(there)
}

impl Restricted {
    // Tells the master which of its columns were basic last.
    pub(crate) fn hint(&mut self, alloc: Global, pool: &Pool) -> Result<(), AllocError>
        ensures { self.new ≡ self.old }
    {
        let places = places_of(alloc, &self.ids, pool.len())?;
        let likely = likely_of(alloc, pool.recent(), &places)?;
        self.master.hint(&likely);
        Ok(())
    }

    // Tells the pool which of its columns are basic in the master.
    pub(crate) fn note(
        &self,
        alloc: Global,
        node: &Node<'_>,
        pool: &mut Pool,
    ) -> Result<(), AllocError>
        requires { IsRestricted node.now pool.old.columns self.now }
        ensures { pool.new ≡ pool.old }
    {
        let basic = ids_at(alloc, &self.ids, self.master.basics())?;
        pool.note_basic(&basic);
        Ok(())
    }
}
