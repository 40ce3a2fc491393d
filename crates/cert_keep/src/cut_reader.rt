//! The reader of a cut: bytes come in pieces, and at the end it gives the points with their plans and trees.
ghost use Rattle.std.specs.Prelude.{◌≡◌, ◌↔◌, ◌++◌, [], ℕ, List, IfOk, IsOk, IsTrue, is_some, length, true};
ghost use Rattle.cert_rules.specs.States.Wanted.{Cuts};
ghost use Rattle.cert_keep.specs.Reads.{IsCutRead, CutMeans};

use crate::CutRead;
use crate::gatherer::Gatherer;
use cert_check::Wanted;
use mill_model::Mill;
use std::alloc::{AllocError, Global};
use std::marker::Model;

/// A reader of a cut that comes in pieces. Beside what a checker keeps, it keeps the points with their plans and trees.
#[derive(Drop)]
pub struct CutReader<'m> {
    gatherer: Gatherer<'m>,
}

impl<'m> Model for CutReader<'m> {
    ghost use Rattle.std.specs.Prelude.{◌≡◌};
    ghost use Rattle.cert_rules.specs.States.Wanted.{Cuts};
    ghost use Rattle.cert_keep.specs.Gathering.{Gathered};
    ghost use Rattle.cert_keep.specs.Parts.{gathered};

    ghost Value = { Gathered };

    ghost view = { λ c. gathered c.gatherer };

    ghost invariant = { λ c. c.gatherer.reader.reading.wanted ≡ Cuts };
}

impl<'m> CutReader<'m> {
    ghost use Rattle.cert_keep.specs.Cuts.{StandsAsCut, CutHasLessRoom};
    ghost use Rattle.cert_check.specs.Readings.{HasBadLine};

    /// A reader that was fed nothing.
    pub fn new(alloc: Global, mill: &'m Mill) -> Result<CutReader<'m>, AllocError>
        ensures stands { IfOk result (λ c. StandsAsCut c []) }
        ensures mill { IfOk result (λ c. c.reading.mill ≡ mill.now) }
    {
        match Gatherer::new(alloc, mill, Wanted::Cuts) {
            Err(error) => Err(error),
            Ok(gatherer) => Ok(CutReader { gatherer }),
        }
    }

    /// Takes more bytes. However they were cut, the reader that is handed back stands for all bytes that it was fed. Unless
    /// a line is bad, the room that is left falls by as much as is fed, so that feeding ends. After want of memory the
    /// reader is gone. Once a line is bad no memory is taken.
    pub fn feed(self, alloc: Global, piece: &[u8]) -> Result<CutReader<'m>, AllocError>
        ensures stands { IfOk result (λ c. (bytes : List ℕ) →
            StandsAsCut self.entry bytes → StandsAsCut c (bytes ++ piece.now)) }
        ensures room { IfOk result (λ c. (bytes : List ℕ) →
            StandsAsCut self.entry bytes → CutHasLessRoom self.entry c (length piece.now)) }
        ensures mill { IfOk result (λ c. c.reading.mill ≡ self.entry.reading.mill) }
        ensures failed { is_some self.entry.reading.failed ≡ true → IsOk result }
    {
        let mut gatherer = self.gatherer;
        match gatherer.feed(alloc, piece) {
            Err(error) => Err(error),
            Ok(()) => Ok(CutReader { gatherer }),
        }
    }

    /// Whether a line is bad, so that no further bytes make a good cut. A line `done` is one.
    pub fn failed(&self) -> bool
        ensures value { result ≡ is_some self.now.reading.failed }
        ensures exact { (bytes : List ℕ) → StandsAsCut self.now bytes →
            (IsTrue result ↔ HasBadLine Cuts self.now.reading.mill bytes) }
    {
        self.gatherer.failed()
    }

    /// What the bytes show that the reader was fed: the points of a good cut exactly where they spell one, else the first bad
    /// line, where `done` can't stand. The points lead to the front.
    pub fn end(self) -> CutRead
        ensures read { (bytes : List ℕ) → StandsAsCut self.entry bytes →
            IsCutRead self.entry.reading.mill bytes result }
        ensures means { (bytes : List ℕ) → StandsAsCut self.entry bytes →
            CutMeans self.entry.reading.mill result }
    {
        match self.gatherer.end() {
            Err(failure) => CutRead::No {
                line: failure.line,
                why: failure.why,
            },
            Ok(built) => CutRead::Head(built.into_head()),
        }
    }
}
