//! Certificates that are read whole, and kept.
ghost use Rattle.std.specs.Prelude.{◌≡◌, ℕ, IfOk, List};
ghost use Rattle.cert_rules.specs.States.Wanted.{All};
ghost use Rattle.cert_keep.specs.Gathering.{Gathers};
ghost use Rattle.cert_keep.specs.Parts.{gathered};
ghost use Rattle.cert_keep.specs.Reads.{IsCutRead, IsCertRead, CutMeans, CertMeans};

use crate::gatherer::Gatherer;
use crate::{CertRead, CutRead, CutReader};
use cert_check::Wanted;
use mill_model::Mill;
use std::alloc::{AllocError, Global};

/// Reads a cut, and keeps its points with their plans and trees; the open tree is given up. The answer is the head exactly
/// where the bytes spell a good cut, else the first bad line, where `done` can't stand. The points lead to the front.
pub fn read_cut(alloc: Global, mill: &Mill, bytes: &[u8]) -> Result<CutRead, AllocError>
    ensures read { IfOk result (IsCutRead mill.now bytes.now) }
    ensures means { IfOk result (CutMeans mill.now) }
{
    let reader = CutReader::new(alloc, mill)?;
    match reader.feed(alloc, bytes) {
        Err(error) => Err(error),
        Ok(reader) => Ok(reader.end()),
    }
}

/// Reads a certificate and keeps all of it. The answer is the certificate exactly where the bytes spell a good one, else the
/// first bad line. The points of a whole one are the Pareto front, those of a cut lead to it, and where a whole one has none no
/// plan is legal.
pub fn read_cert(alloc: Global, mill: &Mill, bytes: &[u8]) -> Result<CertRead, AllocError>
    ensures read { IfOk result (IsCertRead mill.now bytes.now) }
    ensures means { IfOk result (CertMeans mill.now) }
{
    let mut gatherer = Gatherer::new(alloc, mill, Wanted::All)?;
    match gatherer.feed(alloc, bytes) {
        Err(error) => Err(error),
        Ok(()) => Ok(what_was_read(gatherer)),
    }
}

// The certificate, or the first bad line.
pub(crate) fn what_was_read(gatherer: Gatherer<'_>) -> CertRead
    requires { gatherer.reader.reading.wanted ≡ All }
    ensures { (bytes : List ℕ) → Gathers All (gathered gatherer.entry) bytes →
        IsCertRead gatherer.entry.reader.reading.mill bytes result }
{
    match gatherer.end() {
        Err(failure) => CertRead::No {
            line: failure.line,
            why: failure.why,
        },
        Ok(built) => built.into_certificate(),
    }
}
