// The buffer.
ghost use Rattle.std.specs.Prelude.{◌≡◌, ◌≤◌, ◌+◌, [], ◌++◌, false, length};
ghost use Rattle.line_out.specs.Puts.{Puts, Ends};

use crate::End;
use slab_desk::Failed;
use std::marker::{Model, PhantomData};

// So many bytes wait at most.
const ROOM: usize = 4096;

// So many bytes are put at most at once.
const MOST_AT_ONCE: usize = 64;

/// A buffer before an end of a desk. What is put goes out in order; after the outside has failed nothing more goes out.
#[derive(Drop)]
pub struct LineOut<E> {
    bytes: [u8; ROOM],
    used: usize,
    failed: bool,
    end: PhantomData<E>,
}

impl<E> Model for LineOut<E> {
    ghost use Rattle.std.specs.Prelude.{◌≤◌, take};
    ghost use Rattle.line_out.specs.Puts.{Waiting};

    ghost Value = { Waiting };

    ghost view = { λ b. record { bytes = take b.used b.bytes; failed = b.failed } };

    ghost invariant = { λ b. b.used ≤ 4096 };
}

impl<E> LineOut<E> {
    /// A buffer in which nothing waits.
    pub fn new() -> LineOut<E>
        ensures { result ≡ record { bytes = []; failed = false } }
    {
        LineOut {
            bytes: [0; ROOM],
            used: 0,
            failed: false,
            end: PhantomData,
        }
    }

    /// Puts these bytes, at most 64.
    pub fn put<D>(&mut self, desk: &mut D, bytes: &[u8])
    where
        E: End<D>,
        requires { length bytes.now ≤ 64 }
        ensures { Puts E.sends bytes.now (self.old, E.seen desk.old) (self.new, E.seen desk.new) }
    {
        if self.used > ROOM - MOST_AT_ONCE {
            self.send_waiting(desk);
        }
        self.keep(bytes);
    }

    // Adds these bytes to those that wait.
    fn keep(&mut self, bytes: &[u8])
        requires { length self.old.bytes + length bytes.now ≤ 4096 }
        ensures { self.new ≡ record self.old { bytes = self.old.bytes ++ bytes.now } }
    {
        let end = self.used + bytes.len();
        self.bytes[self.used..end].copy_from_slice(bytes);
        self.used = end;
    }

    // Sends what waits, unless the outside has failed before, and tells whether it has failed by now.
    fn is_broken_after<D>(&self, desk: &mut D) -> bool
    where
        E: End<D>,
        ensures { Puts E.sends [] (self.now, E.seen desk.old) (record { bytes = []; failed = result }, E.seen desk.new) }
    {
        if self.failed {
            return true;
        }
        match E::send(desk, &self.bytes[..self.used]) {
            Ok(()) => false,
            Err(Failed) => true,
        }
    }

    // Sends what waits.
    fn send_waiting<D>(&mut self, desk: &mut D)
    where
        E: End<D>,
        ensures empty { self.new.bytes ≡ [] }
        ensures nothing { Puts E.sends [] (self.old, E.seen desk.old) (self.new, E.seen desk.new) }
    {
        self.failed = self.is_broken_after(desk);
        self.used = 0;
    }

    /// Sends what waits still. It is `Failed` where the outside has failed since the buffer was new.
    pub fn finish<D>(self, desk: &mut D) -> Result<(), Failed>
    where
        E: End<D>,
        ensures { Ends E.sends self (E.seen desk.old) (E.seen desk.new) result }
    {
        if self.is_broken_after(desk) {
            Err(Failed)
        } else {
            Ok(())
        }
    }
}
