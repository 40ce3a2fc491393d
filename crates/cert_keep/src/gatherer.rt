//! A reader that keeps what it reads.
ghost use Rattle.std.specs.Prelude.{◌≡◌, ◌<◌, ◌≤◌, [], IfErr, IfOk, IsOk, None, OnOk, is_some, length, take, true};
ghost use Rattle.cert_keep.specs.Gathering.{IsBuiltFrom};
ghost use Rattle.cert_check.specs.Readings.{wanted_of};
ghost use Rattle.cert_check.specs.Verdicts.{IsBadAt};

use crate::assembly::Assembly;
use cert_check::{Failure, Reader, Wanted};
use mill_model::Mill;
use std::alloc::{AllocError, Global};

/// A reader, and what the lines so far have built.
#[derive(Drop)]
pub(crate) struct Gatherer<'m> {
    reader: Reader<'m>,
    built: Assembly,
}

impl<'m> Gatherer<'m> {
    ghost use Rattle.std.specs.Prelude.{◌↔◌, IsTrue};
    ghost use Rattle.cert_keep.specs.Gathering.{ForGathered, Gathers, GathersOn, HasLessAfter};
    ghost use Rattle.cert_keep.specs.Parts.{gathered};
    ghost use Rattle.cert_check.specs.Readings.{HasBadLine};

    // A reader that was fed nothing.
    pub(crate) fn new(
        alloc: Global,
        mill: &'m Mill,
        wanted: Wanted,
    ) -> Result<Gatherer<'m>, AllocError>
        ensures stands { IfOk result (λ g. Gathers (wanted_of wanted) (gathered g) []) }
        ensures mill { IfOk result (λ g. g.reader.reading.mill ≡ mill.now) }
        ensures wanted { IfOk result (λ g. g.reader.reading.wanted ≡ wanted_of wanted) }
    {
        let reader = Reader::new(alloc, mill, wanted)?;
        let built = Assembly::new(alloc);
        Ok(Gatherer { reader, built })
    }

    // Whether a line is bad.
    pub(crate) fn failed(&self) -> bool
        ensures value { result ≡ is_some self.now.reader.reading.failed }
        ensures exact { ForGathered (gathered self.now) (λ bytes. IsTrue result ↔
            HasBadLine self.now.reader.reading.wanted self.now.reader.reading.mill bytes) }
    {
        self.reader.failed()
    }

    // Takes a piece, line by line, until one is bad.
    pub(crate) fn feed(&mut self, alloc: Global, piece: &[u8]) -> Result<(), AllocError>
        ensures stands { OnOk result (GathersOn (gathered self.old) (gathered self.new) piece.now) }
        ensures room { OnOk result
            (HasLessAfter (gathered self.old) (gathered self.new) (length piece.now)) }
        ensures mill { self.new.reader.reading.mill ≡ self.old.reader.reading.mill }
        ensures wanted { self.new.reader.reading.wanted ≡ self.old.reader.reading.wanted }
        ensures failed { is_some self.old.reader.reading.failed ≡ true → IsOk result }
    {
        let mut at = 0;
        while at < piece.len() && !self.failed() {
            match self.take(alloc, &piece[at..]) {
                Err(error) => return Err(error),
                Ok(taken) => at += taken,
            }
        }
        Ok(())
    }

    // Takes some bytes of a piece, up to the end of a line, and answers how many.
    fn take(&mut self, alloc: Global, piece: &[u8]) -> Result<usize, AllocError>
        requires some { 0 < length piece.now }
        requires running { self.old.reader.reading.failed ≡ None }
        ensures within { IfOk result (λ n. n ≤ length piece.now) }
        ensures moves { IfOk result (λ n. 0 < n) }
        ensures stands { IfOk result (λ n.
            GathersOn (gathered self.old) (gathered self.new) (take n piece.now)) }
        ensures room { IfOk result (λ n. HasLessAfter (gathered self.old) (gathered self.new) n) }
        ensures mill { self.new.reader.reading.mill ≡ self.old.reader.reading.mill }
        ensures wanted { self.new.reader.reading.wanted ≡ self.old.reader.reading.wanted }
    {
        let taken = self.reader.take(piece);
        if self.reader.failed() {
            return Ok(taken);
        }
        let orders = self.reader.orders();
        match self.reader.last() {
            None => Ok(taken),
            Some(line) => match self.built.add(alloc, orders, &line) {
                Err(error) => Err(error),
                Ok(()) => Ok(taken),
            },
        }
    }

    // What the bytes show: what was built, where they spell a good certificate, or the first bad line.
    pub(crate) fn end(self) -> Result<Assembly, Failure>
        ensures built { ForGathered (gathered self.entry) (λ bytes. IfOk result (IsBuiltFrom
            self.entry.reader.reading.mill self.entry.reader.reading.wanted bytes)) }
        ensures bad { ForGathered (gathered self.entry) (λ bytes. IfErr result (λ f. IsBadAt
            self.entry.reader.reading.mill self.entry.reader.reading.wanted bytes f.line f.why)) }
    {
        let built = self.built;
        match self.reader.end() {
            Err(failure) => Err(failure),
            Ok(_) => Ok(built),
        }
    }
}
