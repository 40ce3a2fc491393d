//! The reader of a certificate: bytes come in pieces, and at the end it gives all of it.
ghost use Rattle.std.specs.Prelude.{◌≡◌, ◌↔◌, ◌++◌, [], true, ℕ, List, IfOk, IsErr, IsOk, IsTrue, length};
ghost use Rattle.cert_keep.specs.Certs.{IsLeftAfter};
ghost use Rattle.cert_keep.specs.Reads.{IsCertRead, CertMeans};

use crate::CertRead;
use crate::gatherer::Gatherer;
use crate::whole::what_was_read;
use cert_check::Wanted;
use mill_model::{MOST_CERTIFICATE_BYTES, Mill};
use std::alloc::{AllocError, Global};
use std::marker::Model;
use thiserror::Error;

/// More bytes came than a certificate that is read whole may have: more than `MOST_CERTIFICATE_BYTES`.
#[derive(Clone, Copy, Debug, PartialEq, Eq, Error)]
#[error("the certificate is too long")]
pub struct TooLong;

/// A reader of a certificate that comes in pieces. Beside what a checker keeps, it keeps the certificate, up to the number of
/// bytes that one may have.
#[derive(Drop)]
pub struct CertReader<'m> {
    gatherer: Gatherer<'m>,
    // how many bytes can still come, while no more came than a certificate may have
    left: Option<usize>,
}

impl<'m> Model for CertReader<'m> {
    ghost use Rattle.std.specs.Prelude.{◌≡◌};
    ghost use Rattle.cert_rules.specs.States.Wanted.{All};
    ghost use Rattle.cert_keep.specs.Certs.{CertReading};
    ghost use Rattle.cert_keep.specs.Parts.{gathered};

    ghost Value = { CertReading };

    ghost view = { λ c. record { gathered = gathered c.gatherer; left = c.left } };

    ghost invariant = { λ c. c.gatherer.reader.reading.wanted ≡ All };
}

impl<'m> CertReader<'m> {
    ghost use Rattle.cert_keep.specs.Certs.{StandsAsCert, CertHasLessRoom, IsLong, IsNoCert};
    ghost use Rattle.cert_keep.specs.Certs.{cert_failed};

    /// A reader that was fed nothing.
    ///
    /// # Errors
    ///
    /// Want of memory.
    pub fn new(alloc: Global, mill: &'m Mill) -> Result<CertReader<'m>, AllocError>
        ensures stands { IfOk result (λ c. StandsAsCert c []) }
        ensures mill { IfOk result (λ c. c.gathered.reading.mill ≡ mill.now) }
    {
        match Gatherer::new(alloc, mill, Wanted::All) {
            Err(error) => Err(error),
            Ok(gatherer) => Ok(CertReader {
                gatherer,
                left: Some(MOST_CERTIFICATE_BYTES),
            }),
        }
    }

    /// Takes more bytes. However they were cut, the reader that is handed back stands for all bytes that it was fed. The number
    /// of bytes that can still come falls by as many as are fed, until too many came, so that feeding ends. Once a line is bad
    /// or too many bytes came no memory is taken.
    ///
    /// # Errors
    ///
    /// Want of memory; the reader is then gone.
    pub fn feed(self, alloc: Global, piece: &[u8]) -> Result<CertReader<'m>, AllocError>
        ensures stands { IfOk result (λ c. (bytes : List ℕ) →
            StandsAsCert self.entry bytes → StandsAsCert c (bytes ++ piece.now)) }
        ensures room { IfOk result (λ c. CertHasLessRoom self.entry c (length piece.now)) }
        ensures mill { IfOk result (λ c.
            c.gathered.reading.mill ≡ self.entry.gathered.reading.mill) }
        ensures failed { cert_failed self.entry ≡ true → IsOk result }
    {
        let mut gatherer = self.gatherer;
        let left = left_after(self.left, piece.len());
        if left.is_none() {
            return Ok(CertReader { gatherer, left });
        }
        match gatherer.feed(alloc, piece) {
            Err(error) => Err(error),
            Ok(()) => Ok(CertReader { gatherer, left }),
        }
    }

    /// Whether more bytes came than a certificate may have.
    pub fn is_long(&self) -> bool
        ensures exact { (bytes : List ℕ) →
            StandsAsCert self.now bytes → (IsTrue result ↔ IsLong bytes) }
    {
        self.left.is_none()
    }

    /// Whether too many bytes came or a line is bad, so that no further bytes make a good certificate.
    pub fn failed(&self) -> bool
        ensures value { result ≡ cert_failed self.now }
        ensures exact { (bytes : List ℕ) → StandsAsCert self.now bytes →
            (IsTrue result ↔ IsNoCert self.now.gathered.reading.mill bytes) }
    {
        if self.left.is_none() {
            return true;
        }
        self.gatherer.failed()
    }

    /// What the bytes show that the reader was fed, as `read_cert` answers it.
    ///
    /// # Errors
    ///
    /// More bytes came than a certificate may have.
    pub fn end(self) -> Result<CertRead, TooLong>
        ensures read { (bytes : List ℕ) → StandsAsCert self.entry bytes →
            IfOk result (IsCertRead self.entry.gathered.reading.mill bytes) }
        ensures means { (bytes : List ℕ) → StandsAsCert self.entry bytes →
            IfOk result (CertMeans self.entry.gathered.reading.mill) }
        ensures long { (bytes : List ℕ) → StandsAsCert self.entry bytes →
            (IsErr result ↔ IsLong bytes) }
    {
        if self.left.is_none() {
            return Err(TooLong);
        }
        Ok(what_was_read(self.gatherer))
    }
}

// How many bytes can still come after so many more.
fn left_after(left: Option<usize>, more: usize) -> Option<usize>
    ensures { IsLeftAfter left more result }
{
    match left {
        None => None,
        Some(left) => left.checked_sub(more),
    }
}
