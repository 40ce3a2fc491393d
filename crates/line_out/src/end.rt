// Where bytes go.
ghost use Rattle.std.specs.Prelude.{List, ℕ, [], ◌++◌};
ghost use Rattle.slab_desk.specs.Desk.{Told, Says, AppendsAll};
ghost use Rattle.line_out.specs.Seen.{Seen, IsSent};

use slab_desk::{Desk, Failed, say_all, write_all};

/// An end of a desk, to which bytes go.
pub trait End<D> {
    /// What is seen of the desk.
    ghost seen: { D → Seen };

    /// These bytes went out.
    ghost sends: { List ℕ → Told → Told → Type 0 };

    /// Sends all of the bytes, or a prefix of them where the outside fails. It takes no memory, and of no bytes makes no call.
    fn send(desk: &mut D, bytes: &[u8]) -> Result<(), Failed>
        ensures { IsSent sends bytes.now (seen desk.old) (seen desk.new) result };

    /// Where nothing goes out nothing changes.
    ghost nothing: { (x : Told) → sends [] x x };

    /// What went out and then more is all of it.
    ghost joined: { (front more : List ℕ) (x y z : Told) → sends front x y → sends more y z → sends (front ++ more) x z };
}

/// Standard output.
pub struct Said;

/// The target file, of which each write goes to the end.
pub struct Written;

impl<D: Desk> End<D> for Said {
    ghost use Rattle.slab_desk.proofs.Pieces.{says_join};
    ghost use Rattle.line_out.specs.Ends.{says_nothing};

    ghost seen = { λ desk. record { told = D.told desk; faults = D.faults desk; stopped = D.stopped desk; named = D.named desk } };

    ghost sends = { Says };

    fn send(desk: &mut D, bytes: &[u8]) -> Result<(), Failed> {
        say_all(desk, bytes)
    }

    ghost nothing = { says_nothing };

    ghost joined = { says_join };
}

impl<D: Desk> End<D> for Written {
    ghost use Rattle.slab_desk.proofs.Pieces.{appends_join};
    ghost use Rattle.line_out.specs.Ends.{appends_nothing};

    ghost seen = { λ desk. record { told = D.told desk; faults = D.faults desk; stopped = D.stopped desk; named = D.named desk } };

    ghost sends = { AppendsAll };

    fn send(desk: &mut D, bytes: &[u8]) -> Result<(), Failed> {
        write_all(desk, bytes)
    }

    ghost nothing = { appends_nothing };

    ghost joined = { appends_join };
}
