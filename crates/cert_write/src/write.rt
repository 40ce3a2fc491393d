// A certificate goes out.
ghost use Rattle.std.specs.Prelude.{◌≡◌, OnOk, OnErr};
ghost use Rattle.std.specs.Result.{is_err};
ghost use Rattle.slab_desk.specs.Causes.{HasCause};
ghost use Rattle.slab_desk.specs.Desk.{Steps, AppendsAll, WithPrefix};
ghost use Rattle.cert_text.specs.Texts.{certificate_text};
ghost use Rattle.cert_write.specs.Parts.{certificate_of, HasMarksOfItsVersion};

use crate::Stored;
use crate::certificate::put_certificate;
use line_out::{LineOut, Written};
use mill_model::{Mill, Version};
use slab_desk::{Desk, Failed};

/// Appends the text of version 2 of this certificate to the target file, or a prefix of it where the outside fails. It takes
/// no memory.
pub fn write_cert<D: Desk>(mill: &Mill, what: Stored<'_>, desk: &mut D) -> Result<(), Failed>
    ensures all { OnOk result (Steps (D.told desk.old) (D.told desk.new) (AppendsAll (certificate_text (certificate_of Version.Two what.entry)))) }
    ensures prefix { OnErr result (Steps (D.told desk.old) (D.told desk.new) (WithPrefix AppendsAll (certificate_text (certificate_of Version.Two what.entry)))) }
    ensures cause { HasCause (D.faults desk.old) (D.faults desk.new) result }
    ensures stopped { D.stopped desk.new ≡ is_err result }
    ensures named { D.named desk.new ≡ D.named desk.old }
{
    write_version(mill, Version::Two, what, desk)
}

/// Appends the text of this certificate in this version to the target file, or a prefix of it where the outside fails. In
/// version 1 each mark is plain. It takes no memory.
pub fn write_version<D: Desk>(
    _mill: &Mill,
    version: Version,
    what: Stored<'_>,
    desk: &mut D,
) -> Result<(), Failed>
    requires { HasMarksOfItsVersion (certificate_of version what) }
    ensures all { OnOk result (Steps (D.told desk.old) (D.told desk.new) (AppendsAll (certificate_text (certificate_of version what.entry)))) }
    ensures prefix { OnErr result (Steps (D.told desk.old) (D.told desk.new) (WithPrefix AppendsAll (certificate_text (certificate_of version what.entry)))) }
    ensures cause { HasCause (D.faults desk.old) (D.faults desk.new) result }
    ensures stopped { D.stopped desk.new ≡ is_err result }
    ensures named { D.named desk.new ≡ D.named desk.old }
{
    let mut out = LineOut::<Written>::new();
    put_certificate(&mut out, desk, version, what);
    out.finish(desk)
}
