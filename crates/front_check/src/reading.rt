// A certificate, read in pieces until a line is bad.
ghost use Rattle.std.specs.Prelude.{◌≡◌, IfOk, OnOk};
ghost use Rattle.slab_desk.specs.Desk.{WhereTold, Steps};
ghost use Rattle.slab_desk.specs.Names.{with_opened};
ghost use Rattle.cert_check.specs.Verdicts.{said_of};
ghost use Rattle.front_check.specs.Owed.{Nothing};
ghost use Rattle.front_check.specs.Endings.{HasOnlyRead, is_fault, HasVerdict, ReadsToBad, IsStop};

use crate::ending::Stop;
use cert_check::{Checker, Verdict};
use mill_model::Mill;
use slab_desk::Desk;
use std::alloc::Global;

// So many bytes are asked for at once.
const PIECE: usize = 8192;

/// What the certificate in a file shows of a mill. It is read in pieces, to its end or to the piece in which a line is bad; the
/// pieces aren't kept, so it may have any length.
pub fn read_certificate<D: Desk>(
    alloc: Global,
    desk: &mut D,
    mill: &Mill,
    name: &str,
) -> Result<Verdict, Stop>
    ensures verdict { IfOk result (λ v. WhereTold (D.told desk.old) (λ t. HasVerdict mill.now name.now (said_of v) t.files)) }
    ensures soon { OnOk result (Steps (D.told desk.old) (D.told desk.new) (ReadsToBad mill.now name.now)) }
    ensures reads { HasOnlyRead (IsStop Nothing)
        (D.told desk.old) (D.told desk.new) (D.faults desk.old) (D.faults desk.new) result }
    ensures stopped { D.stopped desk.new ≡ is_fault result }
    ensures named { D.named desk.new ≡ with_opened name.now (D.named desk.old) }
{
    // Its readers tell that a mill is within its limits.
    let _within_limits = mill.colours();
    desk.open_file(name)?;
    let mut checker = Checker::new(alloc, mill)?;
    let mut buffer = [0u8; PIECE];
    'pieces: loop {
        if checker.failed() {
            return Ok(checker.end());
        }
        let count = desk.read(&mut buffer)?;
        if count == 0 {
            return Ok(checker.end());
        }
        checker.feed(&buffer[..count]);
    }
}
