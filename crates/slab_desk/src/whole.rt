//! Whole files and whole texts, over a desk that moves some bytes at a time.
ghost use Rattle.std.specs.Prelude.{◌≡◌, ◌≤◌, ◌+◌, false, [], length, IfOk, OnOk, OnErr, IsErrOf};
ghost use Rattle.slab_counter.specs.Counter.{Rose};
ghost use Rattle.slab_desk.specs.Causes.{HasCause, is_fault, is_stopped_after};
ghost use Rattle.slab_desk.specs.Names.{with_opened};
ghost use Rattle.slab_desk.specs.Desk.{Steps, WhereTold, HasFile, HasLongFile, ChangesLeft, ReadsAtMost, Says, AppendsAll, WithPrefix};

use crate::{Desk, Failed};
use std::alloc::{AllocError, Global};
use thiserror::Error;

// So many bytes are asked for at once.
const PIECE: usize = 4096;

/// Why a file was not read whole.
#[derive(Clone, Copy, Debug, PartialEq, Eq, Error)]
pub enum ReadFail {
    /// A call of the desk failed, so its count of faults rose or stands at its last value.
    #[error("the outside failed")]
    Fault,
    /// More bytes came than the limit allows.
    #[error("the file is too long")]
    Long,
    /// There was no memory for the bytes.
    #[error("out of memory")]
    Memory,
}

impl From<Failed> for ReadFail {
    ghost use Rattle.std.specs.Prelude.{◌≡◌};
    ghost use Rattle.slab_desk.specs.declared.whole.ReadFail.TheVariants.{Fault};

    ghost from_gives = { λ _ e. e ≡ Fault };

    fn from(_: Failed) -> ReadFail {
        ReadFail::Fault
    }
}

impl From<AllocError> for ReadFail {
    ghost use Rattle.std.specs.Prelude.{◌≡◌};
    ghost use Rattle.slab_desk.specs.declared.whole.ReadFail.TheVariants.{Memory};

    ghost from_gives = { λ _ e. e ≡ Memory };

    fn from(_: AllocError) -> ReadFail {
        ReadFail::Memory
    }
}

/// Opens a file and gives all its bytes, of which there are at most `limit`. It reads at most `limit + 1` bytes, whatever it
/// answers, and changes nothing but what is left to read.
pub fn read_all<D: Desk>(
    alloc: Global,
    desk: &mut D,
    name: &str,
    limit: usize,
) -> Result<Vec<u8>, ReadFail>
    ensures bytes { IfOk result (λ v. WhereTold (D.told desk.old) (HasFile name.now v.items)) }
    ensures whole { OnOk result (WhereTold (D.told desk.new) (λ told. told.left ≡ [])) }
    ensures fits { IfOk result (λ v. length v.items ≤ limit) }
    ensures long { IsErrOf result ReadFail.Long → WhereTold (D.told desk.old) (HasLongFile name.now limit) }
    ensures fault { IsErrOf result ReadFail.Fault → Rose (D.faults desk.old) (D.faults desk.new) }
    ensures kept { is_fault result ≡ false → D.faults desk.new ≡ D.faults desk.old }
    ensures stopped { D.stopped desk.new ≡ is_fault result }

    // After each answer, `Memory` too, which is free.
    ensures read { Steps (D.told desk.old) (D.told desk.new) (ReadsAtMost name.now (limit + 1)) }
    ensures left { Steps (D.told desk.old) (D.told desk.new) ChangesLeft }
    ensures later { D.faults desk.old ≤ D.faults desk.new }
    ensures named { D.named desk.new ≡ with_opened name.now (D.named desk.old) }
{
    desk.open_file(name)?;
    let mut bytes = Vec::new(alloc);
    let mut buffer = [0u8; PIECE];
    loop {
        let room = limit - bytes.len();
        let size = if room < PIECE { room + 1 } else { PIECE };
        let count = desk.read(&mut buffer[..size])?;
        if count == 0 {
            return Ok(bytes);
        }
        if count > room {
            return Err(ReadFail::Long);
        }
        bytes.extend_from_slice(&buffer[..count])?;
    }
}

/// Says all of the bytes, or a prefix of them where the outside fails. It takes no memory, and of no bytes makes no call.
pub fn say_all<D: Desk>(desk: &mut D, bytes: &[u8]) -> Result<(), Failed>
    ensures all { OnOk result (Steps (D.told desk.old) (D.told desk.new) (Says bytes.now)) }
    ensures prefix { OnErr result (Steps (D.told desk.old) (D.told desk.new) (WithPrefix Says bytes.now)) }
    ensures cause { HasCause (D.faults desk.old) (D.faults desk.new) result }
    ensures stopped { D.stopped desk.new ≡ is_stopped_after (D.stopped desk.old) bytes.now result }
    ensures named { D.named desk.new ≡ D.named desk.old }
{
    let mut rest = bytes;
    while !rest.is_empty() {
        let count = desk.say(rest)?;
        rest = &rest[count..];
    }
    Ok(())
}

/// Appends all of the bytes to the target file, or a prefix of them where the outside fails. It takes no memory, and of no
/// bytes makes no call.
pub fn write_all<D: Desk>(desk: &mut D, bytes: &[u8]) -> Result<(), Failed>
    ensures all { OnOk result (Steps (D.told desk.old) (D.told desk.new) (AppendsAll bytes.now)) }
    ensures prefix { OnErr result (Steps (D.told desk.old) (D.told desk.new) (WithPrefix AppendsAll bytes.now)) }
    ensures cause { HasCause (D.faults desk.old) (D.faults desk.new) result }
    ensures stopped { D.stopped desk.new ≡ is_stopped_after (D.stopped desk.old) bytes.now result }
    ensures named { D.named desk.new ≡ D.named desk.old }
{
    let mut rest = bytes;
    while !rest.is_empty() {
        let count = desk.write(rest)?;
        rest = &rest[count..];
    }
    Ok(())
}
