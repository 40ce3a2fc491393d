//! Which columns of a pool were basic last.
ghost use Rattle.std.specs.Prelude.{◌≡◌, ℕ, ◌<◌, ◌≤◌, [], length, OnOk};
ghost use Rattle.std.specs.Vec.{vec_capacity};
ghost use Rattle.slab_columns.specs.Recency.{AreBelow};

use crate::ColId;
use std::alloc::{AllocError, Global};
use std::marker::Model;
use std::mem::swap;

/// The numbers of columns that were basic, the latest first and each once. `next` is room for the list after a change, and
/// `noted` says which numbers it has; between changes none.
#[doc(hidden)]
#[derive(Drop)]
pub struct Basics {
    list: Vec<ColId>,
    next: Vec<ColId>,
    noted: Vec<bool>,
}

impl Model for Basics {
    ghost use Rattle.std.specs.Prelude.{◌≤◌, length};
    ghost use Rattle.std.specs.Vec.{vec_capacity};
    ghost use Rattle.slab_columns.specs.Recency.{Recency, AreBelow};

    ghost Value = { Recency };

    ghost view = { λ b. record { room = length b.noted.items; ids = b.list.items } };

    ghost invariant = { λ b. AreBelow (length b.noted.items) b.list.items };
}

impl Basics {
    // No column yet, and room for none.
    pub(crate) fn new(alloc: Global) -> Basics
        ensures { result ≡ record { room = 0; ids = [] } }
    {
        Basics {
            list: Vec::new(alloc),
            next: Vec::new(alloc),
            noted: Vec::new(alloc),
        }
    }

    // Takes memory for one column more.
    pub(crate) fn reserve(&mut self) -> Result<(), AllocError>
        ensures ok { OnOk result (self.old.room < self.new.room) }
        ensures room { self.old.room ≤ self.new.room }
        ensures ids { self.new.ids ≡ self.old.ids }
    {
        let room = self.noted.len() + 1;
        self.list.reserve(room.saturating_sub(self.list.len()))?;
        self.next.reserve(room.saturating_sub(self.next.len()))?;
        self.noted.push(false)?;
        Ok(())
    }

    // Puts these numbers in front.
    pub(crate) fn note(&mut self, ids: &[ColId])
        requires { AreBelow self.old.room ids.now }
        ensures room { self.new.room ≡ self.old.room }
        ensures ids { (n : ℕ) → AreBelow n ids.now → AreBelow n self.old.ids → AreBelow n self.new.ids }
    {
        self.next.clear();
        take_new(&mut self.next, &mut self.noted, ids);
        take_new(&mut self.next, &mut self.noted, &self.list);
        swap(&mut self.list, &mut self.next);
        forget(&mut self.noted, &self.list);
    }

    // The numbers, the latest first.
    #[inline]
    pub(crate) fn ids(&self) -> &[ColId]
        ensures { result.now ≡ self.now.ids }
    {
        self.list.as_slice()
    }

    // Forgets all.
    pub(crate) fn clear(&mut self)
        ensures { self.new ≡ record self.old { ids = [] } }
    {
        self.list.clear();
    }
}

// Appends the numbers that aren't noted yet, as far as there is room, and notes them.
fn take_new(list: &mut Vec<ColId>, noted: &mut [bool], ids: &[ColId])
    requires { AreBelow (length noted.old) ids.now }
    ensures { (n : ℕ) → AreBelow n ids.now → AreBelow n list.old.items → AreBelow n list.new.items }
{
    for &id in ids {
        take_if_new(list, noted, id);
    }
}

// Appends a number and notes it, unless it is noted or there is no room.
fn take_if_new(list: &mut Vec<ColId>, noted: &mut [bool], id: ColId)
    requires { id.0 < length noted.old }
    ensures { (n : ℕ) → id.0 < n → AreBelow n list.old.items → AreBelow n list.new.items }
{
    let place = id.0 as usize;
    if !noted[place] && list.len() < list.capacity() {
        noted[place] = true;
        list.push_reserved(id);
    }
}

// Notes none of these numbers any more.
fn forget(noted: &mut [bool], ids: &[ColId])
    requires { AreBelow (length noted.old) ids.now }
{
    for &id in ids {
        noted[id.0 as usize] = false;
    }
}
