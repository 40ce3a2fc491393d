// What is said of a verdict.
ghost use Rattle.std.specs.Prelude.{◌≡◌, IfOk};
ghost use Rattle.std.specs.String.{string_bytes};
ghost use Rattle.cert_check.specs.Verdicts.{said_of};
ghost use Rattle.front_check.specs.Texts.{verdict_text, status_of};

use crate::ending::Ending;
use crate::texts::{bad_line_text, front_text};
use cert_check::Verdict;
use std::alloc::{AllocError, Global};

/// What is said of a verdict, and its status.
pub fn said(alloc: Global, verdict: &Verdict) -> Result<Ending, AllocError>
    ensures text { IfOk result (λ ending. string_bytes ending.text ≡ verdict_text (said_of verdict.now)) }
    ensures status { IfOk result (λ ending. ending.status ≡ status_of (said_of verdict.now)) }
{
    match verdict {
        Verdict::Front(points) => Ok(Ending {
            status: 0,
            text: front_text(alloc, points.list(), "proved")?,
        }),
        Verdict::Cut(points) => Ok(Ending {
            status: 3,
            text: front_text(alloc, points.list(), "cut")?,
        }),
        Verdict::NoPlan => Ok(Ending {
            status: 4,
            text: String::from_str(alloc, "noplan\n")?,
        }),
        Verdict::No { line, why } => Ok(Ending {
            status: 7,
            text: bad_line_text(alloc, *line, why)?,
        }),
    }
}
