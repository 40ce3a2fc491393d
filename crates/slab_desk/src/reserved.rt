//! Bytes for which memory was taken before.
ghost use Rattle.std.specs.Prelude.{◌≡◌, ◌+◌, ◌-◌, ◌≤◌, ◌<◌, [], ◌++◌, length, min, IfOk, IfSome, IfNone};

use std::alloc::{AllocError, Global};
use std::marker::Model;

#[derive(Drop)]
pub struct Reserved {
    bytes: Vec<u8>,
    room: usize,
}

impl Model for Reserved {
    ghost use Rattle.std.specs.Prelude.{◌≤◌};
    ghost use Rattle.std.specs.Vec.{vec_capacity};
    ghost use Rattle.slab_desk.specs.Reserve.{Reserve};

    ghost Value = { Reserve };

    ghost view = { λ r. record { bytes = r.bytes.items; room = r.room } };

    ghost invariant = { λ r. r.room ≤ vec_capacity r.bytes };
}

impl Reserved {
    pub fn new(alloc: Global, room: usize) -> Result<Reserved, AllocError>
        ensures { IfOk result (λ r. r ≡ record { bytes = []; room = room }) }
    {
        Ok(Reserved {
            bytes: Vec::with_capacity(alloc, room)?,
            room,
        })
    }

    pub fn bytes(&self) -> &[u8]
        ensures { result.now ≡ self.now.bytes }
    {
        self.bytes.as_slice()
    }

    // How many of so many more bytes can be appended at once: at most a piece. None where bytes find no room.
    pub fn movable(&self, wanted: usize, piece: usize) -> Option<usize>
        ensures some { IfSome result (λ k. k ≡ min piece (min wanted (self.now.room - length self.now.bytes))) }
        ensures free { IfSome result (λ _. 0 < wanted → length self.now.bytes < self.now.room) }
        ensures full { IfNone result ((0 < wanted) × (self.now.room ≤ length self.now.bytes)) }
    {
        let free = self.room.saturating_sub(self.bytes.len());
        if wanted > 0 && free == 0 {
            return None;
        }
        Some(piece.min(wanted.min(free)))
    }

    pub fn append(&mut self, more: &[u8])
        requires { length self.old.bytes + length more.now ≤ self.old.room }
        ensures { self.new ≡ record self.old { bytes = self.old.bytes ++ more.now } }
    {
        self.bytes.extend_from_slice(more).unwrap();
    }

    pub fn clear(&mut self)
        ensures { self.new ≡ record self.old { bytes = [] } }
    {
        self.bytes.clear();
    }
}
