//! The calls of a desk by kind, their counts, and which of them are to fail.
ghost use Rattle.std.specs.Prelude.{◌≡◌, ◌↔◌, IsTrue, Contains};
ghost use Rattle.slab_counter.specs.Counter.{next_count};
ghost use Rattle.slab_desk.specs.Calls.{count_of, with_call};

use slab_counter::raised;

/// A kind of call of a desk.
#[derive(Clone, Copy, Debug, PartialEq, Eq)]
pub enum Act {
    /// Of `open_file`.
    OpenFile,
    /// Of `read`.
    Read,
    /// Of `create_file`.
    Create,
    /// Of `write`.
    Write,
    /// Of `say`.
    Say,
}

// How many calls of each kind there were.
#[derive(Clone, Copy)]
pub struct Calls {
    pub opens: u64,
    pub reads: u64,
    pub creates: u64,
    pub writes: u64,
    pub says: u64,
}

impl Calls {
    // How many calls of this kind there were.
    pub fn of(&self, act: Act) -> u64
        ensures { result ≡ count_of act self.now }
    {
        match act {
            Act::OpenFile => self.opens,
            Act::Read => self.reads,
            Act::Create => self.creates,
            Act::Write => self.writes,
            Act::Say => self.says,
        }
    }

    // Counts one more call of this kind, and gives its number.
    pub fn count(&mut self, act: Act) -> u64
        ensures counted { self.new ≡ with_call act self.old }
        ensures number { result ≡ next_count (count_of act self.old) }
    {
        match act {
            Act::OpenFile => {
                self.opens = raised(self.opens);
                self.opens
            }
            Act::Read => {
                self.reads = raised(self.reads);
                self.reads
            }
            Act::Create => {
                self.creates = raised(self.creates);
                self.creates
            }
            Act::Write => {
                self.writes = raised(self.writes);
                self.writes
            }
            Act::Say => {
                self.says = raised(self.says);
                self.says
            }
        }
    }
}

// Whether the call of this kind and number is to fail.
pub fn fails(failing: &[(Act, u32)], act: Act, number: u64) -> bool
    ensures { IsTrue result ↔ Contains failing.now (act, number) }
{
    for (which, nth) in failing {
        if *which == act && u64::from(*nth) == number {
            return true;
        }
    }
    false
}
