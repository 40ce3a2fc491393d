//! A whole certificate.
ghost use Rattle.std.specs.Prelude.{◌≡◌, ℕ, List, [], IfOk, None};
ghost use Rattle.mill_model.specs.Fronts.{IsGoodWhole, below, count_before, last_sums};
ghost use Rattle.mill_model.specs.Marks.{IsMarkedRefutation};
ghost use Rattle.cert_keep.specs.Reads.{IsCertRead};
ghost use Rattle.cert_trim.specs.Certificates.{AreTrimmedFrom, AreTrimmedSteps};
ghost use Rattle.cert_trim.specs.Reads.{IsTrimRead};

use crate::Trimmed;
use crate::points::{count_below, trim_head};
use crate::walk::Walk;
use cert_keep::{CertRead, read_cert};
use mill_model::{Front, Head, Limits, Mill, Steps, Sums};
use std::alloc::{AllocError, Global};

/// Reads a certificate (its text, one line after another) and trims its finished trees. The answer is the trimmed certificate
/// exactly where the bytes spell a good one of the mill, with its version, its points and plans, and where it is a cut, its open
/// tree as it was; else it is the first bad line. It takes the memory of the trees, and of one path for all of them.
///
/// # Errors
///
/// Want of memory.
pub fn trim(alloc: Global, mill: &Mill, bytes: &[u8]) -> Result<Trimmed, AllocError>
    ensures { IfOk result (IsTrimRead mill.now bytes.now) }
{
    let read = read_cert(alloc, mill, bytes)?;
    trim_read(alloc, mill, read)
}

/// Trims the finished trees of a certificate that was read: the answer is that of `trim` for the bytes that it was read from.
///
/// # Errors
///
/// Want of memory.
pub fn trim_read(alloc: Global, mill: &Mill, read: CertRead) -> Result<Trimmed, AllocError>
    requires { (bytes : List ℕ) × IsCertRead mill.now bytes read }
    ensures { IfOk result (λ trimmed. (bytes : List ℕ) →
        IsCertRead mill.now bytes read → IsTrimRead mill.now bytes trimmed) }
{
    match read {
        CertRead::Whole(version, front) => {
            let shorter = trim_front(alloc, mill, front)?;
            Ok(Trimmed::Whole(version, shorter))
        }
        CertRead::NoPlan(version, last) => {
            let shorter = trim_last(alloc, mill, last)?;
            Ok(Trimmed::NoPlan(version, shorter))
        }
        CertRead::Cut(version, head, open_tree) => {
            let mut walk = Walk::new(alloc, mill)?;
            let shorter = trim_head(alloc, &mut walk, mill, head)?;
            Ok(Trimmed::Cut(version, shorter, open_tree))
        }
        CertRead::No { line, why } => Ok(Trimmed::No { line, why }),
    }
}

// The trimmed tree of a certificate without a point.
fn trim_last(alloc: Global, mill: &Mill, last: Steps) -> Result<Steps, AllocError>
    requires { IsMarkedRefutation mill.now (record { loss = None; count = None }) [] last }
    ensures { IfOk result (AreTrimmedSteps mill.now
        (record { loss = None; count = None }) last) }
{
    let limits = Limits {
        loss: None,
        count: None,
    };
    let mut walk = Walk::new(alloc, mill)?;
    walk.trim_steps(alloc, mill, limits, last)
}

// The sums of the last point, if there is one.
fn last_of(head: &Head) -> Option<Sums>
    ensures { result ≡ last_sums None head.now }
{
    let mut last = None;
    for point in head.points() {
        last = Some(point.sums());
    }
    last
}

// The points with their trimmed trees, and the last tree trimmed for what they leave.
fn trim_front(alloc: Global, mill: &Mill, front: Front) -> Result<Front, AllocError>
    requires { IsGoodWhole mill.now front.points front.last }
    ensures head { IfOk result (λ new. AreTrimmedFrom mill.now None front.points new.points) }
    ensures last { IfOk result (λ new. AreTrimmedSteps mill.now
        (record { loss = None; count = below (count_before (last_sums None front.points)) })
        front.last new.last) }
{
    let (head, last) = front.into_parts();
    let mut walk = Walk::new(alloc, mill)?;
    let limits = Limits {
        loss: None,
        count: count_below(last_of(&head)),
    };
    let points = trim_head(alloc, &mut walk, mill, head)?;
    let shorter = walk.trim_steps(alloc, mill, limits, last)?;
    Ok(Front::new(points, shorter))
}
