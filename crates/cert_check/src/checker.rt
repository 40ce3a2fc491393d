//! The checker: bytes come in pieces, and at the end it says what they show.
ghost use Rattle.std.specs.Prelude.{◌≡◌, ◌↔◌, ◌++◌, [], ℕ, List, IfOk, IsTrue, None, is_some, length};
ghost use Rattle.mill_model.specs.Plans.{Plan, IsLegal};
ghost use Rattle.mill_model.specs.Fronts.{IsFront};
ghost use Rattle.cert_rules.specs.States.Wanted.{All};
ghost use Rattle.cert_rules.specs.Verdicts.{IsVerdict, LeadToTheFront};
ghost use Rattle.cert_check.specs.Verdicts.{said_of, CarriesExceeding, OnFront, OnNoPlan, OnCut, OnNo};

use crate::Verdict;
use crate::ending::Ending;
use crate::reader::Reader;
use crate::wanted::Wanted;
use mill_model::Mill;
use std::alloc::{AllocError, Global};
use std::marker::Model;

/// A checker of a certificate that comes in pieces. It keeps one line, the points so far, the plan that is being read, the
/// path down the tree and the sums of a spread, whatever the certificate's length.
#[derive(Drop)]
pub struct Checker<'m> {
    reader: Reader<'m>,
}

impl<'m> Model for Checker<'m> {
    ghost use Rattle.std.specs.Prelude.{◌≡◌};
    ghost use Rattle.cert_rules.specs.States.Wanted.{All};
    ghost use Rattle.cert_check.specs.Readings.{Reading};

    ghost Value = { Reading };

    ghost view = { λ c. c.reader.reading };

    ghost invariant = { λ c. c.reader.reading.wanted ≡ All };
}

impl<'m> Checker<'m> {
    ghost use Rattle.cert_check.specs.Readings.{Stands, HasLessRoom, HasBadLine};

    /// A checker that was fed nothing. It takes all the memory that a checker ever takes.
    pub fn new(alloc: Global, mill: &'m Mill) -> Result<Checker<'m>, AllocError>
        ensures stands { IfOk result (λ c. Stands c []) }
        ensures mill { IfOk result (λ c. c.mill ≡ mill.now) }
    {
        let reader = Reader::new(alloc, mill, Wanted::All)?;
        Ok(Checker { reader })
    }

    /// Takes more bytes. However they were cut, the checker stands for all bytes that it was fed. Unless a line is bad, the
    /// room that is left falls by as much as is fed, so that feeding ends.
    pub fn feed(&mut self, piece: &[u8])
        ensures stands { (bytes : List ℕ) →
            Stands self.old bytes → Stands self.new (bytes ++ piece.now) }
        ensures room { (bytes : List ℕ) →
            Stands self.old bytes → HasLessRoom self.old self.new (length piece.now) }
        ensures mill { self.new.mill ≡ self.old.mill }
    {
        self.reader.feed(piece);
    }

    /// Whether a line is bad, so that no further bytes make a good certificate: a whole line breaks a rule or can't be
    /// read, or 8,192 bytes came without a line feed, or a byte follows the end of the text.
    pub fn failed(&self) -> bool
        ensures value { result ≡ is_some self.now.failed }
        ensures exact { (bytes : List ℕ) → Stands self.now bytes →
            (IsTrue result ↔ HasBadLine All self.now.mill bytes) }
    {
        self.reader.failed()
    }

    /// What the bytes show that the checker was fed, as `check` answers it.
    pub fn end(self) -> Verdict
        ensures verdict { (bytes : List ℕ) → Stands self.entry bytes →
            IsVerdict self.entry.mill bytes (said_of result) }
        ensures front { (bytes : List ℕ) → Stands self.entry bytes →
            OnFront result (IsFront self.entry.mill) }
        ensures no_plan { (bytes : List ℕ) → Stands self.entry bytes →
            OnNoPlan result ((p : Plan) → IsLegal self.entry.mill p → ⊥) }
        ensures cut { (bytes : List ℕ) → Stands self.entry bytes →
            OnCut result (LeadToTheFront self.entry.mill None) }
        ensures column { (bytes : List ℕ) → Stands self.entry bytes →
            OnNo result (CarriesExceeding self.entry.mill All bytes) }
    {
        match self.reader.end() {
            Err(failure) => Verdict::No {
                line: failure.line,
                why: failure.why,
            },
            Ok(Ending::Unfinished(points)) => Verdict::Cut(points),
            Ok(Ending::Proved(points)) => {
                if points.list().is_empty() {
                    Verdict::NoPlan
                } else {
                    Verdict::Front(points)
                }
            }
        }
    }
}

/// Checks a certificate. The answer is the one that the bytes have: `Front` exactly where they spell a good whole
/// certificate with a point, whose points are then the Pareto front; `NoPlan` exactly where they spell one without a point,
/// and then no plan is legal; `Cut` exactly where they spell a good cut: each of its points but the last is then on the
/// front, and the last has the least loss of the plans with fewer new slabs than the point before; else `No` with the first
/// bad line and why.
pub fn check(alloc: Global, mill: &Mill, bytes: &[u8]) -> Result<Verdict, AllocError>
    ensures verdict { IfOk result (λ v. IsVerdict mill.now bytes.now (said_of v)) }
    ensures front { IfOk result (λ v. OnFront v (IsFront mill.now)) }
    ensures no_plan { IfOk result (λ v. OnNoPlan v ((p : Plan) → IsLegal mill.now p → ⊥)) }
    ensures cut { IfOk result (λ v. OnCut v (LeadToTheFront mill.now None)) }
    ensures column { IfOk result (λ v. OnNo v (CarriesExceeding mill.now All bytes.now)) }
{
    let mut checker = Checker::new(alloc, mill)?;
    checker.feed(bytes);
    Ok(checker.end())
}
