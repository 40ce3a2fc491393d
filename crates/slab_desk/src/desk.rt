//! What a program asks of the outside, and what its answers mean.
ghost use Rattle.std.specs.Prelude.{ℕ, ◌≡◌, ◌<◌, ◌≤◌, Bool, true, Option, length, take, IfOk};
ghost use Rattle.std.specs.Result.{is_err};
ghost use Rattle.slab_counter.specs.Counter.{next_count};
ghost use Rattle.slab_desk.specs.Causes.{HasCause};
ghost use Rattle.slab_desk.specs.Desk.{Told, Answers, Opens, Reads, Creates, Appends, Says};
ghost use Rattle.slab_desk.specs.Names.{Names, with_opened, with_created};

use slab_counter::raised;
use thiserror::Error;

/// The outside failed.
#[derive(Clone, Copy, Debug, PartialEq, Eq, Error)]
#[error("the outside failed")]
pub struct Failed;

/// Files by name, and standard output.
///
/// A call is `Failed` only where the count of faults rose in it, or stands at its last value, 2^64 - 1; all else that the
/// desk tells is then as before. Any other answer leaves the count of faults as it was.
pub trait Desk {
    /// The files, what is left to read, the target and what was said. A desk tells all four or none of them.
    ghost told: { Self → Option Told };

    /// How often the outside has failed.
    ghost faults: { Self → ℕ };

    /// Whether the last call was answered `Failed`. Each desk tells it; where no call was made it is false.
    ghost stopped: { Self → Bool };

    /// The names with which files were to be opened and created, in order, whatever was answered. Each desk tells them.
    ghost named: { Self → Names };

    /// Opens a file, to be read from its beginning. A name that no file has is `Failed`.
    fn open_file(&mut self, name: &str) -> Result<(), Failed>
        ensures opens { Answers result (told self.old) (told self.new) (λ _. Opens name.now) }
        ensures cause { HasCause (faults self.old) (faults self.new) result }
        ensures stopped { stopped self.new ≡ is_err result }
        ensures named { named self.new ≡ with_opened name.now (named self.old) };

    /// Moves some of the unread bytes into `buf`, and answers how many: none only where none are left or `buf` is empty.
    fn read(&mut self, buf: &mut [u8]) -> Result<usize, Failed>
        ensures bound { IfOk result (λ k. k ≤ length buf.new) }
        ensures reads { Answers result (told self.old) (told self.new) (λ k. Reads k buf.new) }
        ensures cause { HasCause (faults self.old) (faults self.new) result }
        ensures stopped { stopped self.new ≡ is_err result }
        ensures named { named self.new ≡ named self.old };

    /// Makes the named file empty, and the target of each write.
    fn create_file(&mut self, name: &str) -> Result<(), Failed>
        ensures creates { Answers result (told self.old) (told self.new) (λ _. Creates name.now) }
        ensures cause { HasCause (faults self.old) (faults self.new) result }
        ensures stopped { stopped self.new ≡ is_err result }
        ensures named { named self.new ≡ with_created name.now (named self.old) };

    /// Appends some of the bytes to the target file, and answers how many, which are not none. Without a target it is `Failed`.
    /// No program writes nothing.
    fn write(&mut self, bytes: &[u8]) -> Result<usize, Failed>
        requires { 0 < length bytes.now }
        ensures bound { IfOk result (λ k. k ≤ length bytes.now) }
        ensures some { IfOk result (λ k. 0 < k) }
        ensures writes { Answers result (told self.old) (told self.new) (λ k. Appends (take k bytes.now)) }
        ensures cause { HasCause (faults self.old) (faults self.new) result }
        ensures stopped { stopped self.new ≡ is_err result }
        ensures named { named self.new ≡ named self.old };

    /// Says some of the bytes, and answers how many, which are not none. No program says nothing.
    fn say(&mut self, bytes: &[u8]) -> Result<usize, Failed>
        requires { 0 < length bytes.now }
        ensures bound { IfOk result (λ k. k ≤ length bytes.now) }
        ensures some { IfOk result (λ k. 0 < k) }
        ensures says { Answers result (told self.old) (told self.new) (λ k. Says (take k bytes.now)) }
        ensures cause { HasCause (faults self.old) (faults self.new) result }
        ensures stopped { stopped self.new ≡ is_err result }
        ensures named { named self.new ≡ named self.old };
}

// Counts a fault, and gives the error that answers it.
pub fn fault(faults: &mut u64, stopped: &mut bool) -> Failed
    ensures counted { faults.new ≡ next_count faults.old }
    ensures stopped { stopped.new ≡ true }
{
    *faults = raised(*faults);
    *stopped = true;
    Failed
}
