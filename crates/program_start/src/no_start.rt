// Why a program can't run.
ghost use Rattle.std.specs.Prelude.{◌≡◌};
ghost use Rattle.std.specs.Process.{exit_status};
ghost use Rattle.program_start.specs.Statuses.{status_without};

use std::process::ExitCode;
use thiserror::Error;

/// Why a program can't run its words.
#[derive(Clone, Copy, Debug, PartialEq, Eq, Error)]
pub enum NoStart {
    /// The outside failed: `/dev/null` can't be opened, or a word isn't UTF-8.
    #[error("a word isn't UTF-8, or /dev/null cannot be opened")]
    Fault,
    /// There was no memory for the words.
    #[error("no memory for the words")]
    Memory,
}

/// The end of a program that can't run: status 5 where the outside failed, and 6 where memory ran out; never 0. The reason is
/// said on standard error.
pub fn end_without(rt: &impl Eprint, program: &str, why: NoStart) -> ExitCode
    ensures { exit_status result ≡ status_without why }
{
    let _ = eprintln!(rt; "{program}: cannot start: {why}");
    match why {
        NoStart::Fault => ExitCode::from(5),
        NoStart::Memory => ExitCode::from(6),
    }
}
