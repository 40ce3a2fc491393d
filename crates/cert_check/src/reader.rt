//! The reader of a certificate: bytes in pieces, line by line.
ghost use Rattle.std.specs.Prelude.{◌≡◌, ◌<◌, ◌≤◌, ◌↔◌, [], ℕ, List, Err, IfErr, IfOk, OnOk, IsTrue, None, is_some, length, take, vec_capacity, if◌then◌else◌};
ghost use Rattle.cert_view.specs.Held.{IsPart};
ghost use Rattle.cert_view.specs.Line.{next_line};
ghost use Rattle.cert_rules.specs.Reading.{number_after};
ghost use Rattle.cert_check.specs.declared.line_why.LineWhy.{LineWhy};
ghost use Rattle.cert_check.specs.Held.{CarriesColumn, HasColumn, IsOver, IsMoved, line_of_read};
ghost use Rattle.mill_model.specs.Mill.{IsInLimits, most_orders};
ghost use Rattle.cert_check.specs.Endings.{HasAccepted};
ghost use Rattle.cert_check.specs.Readings.{IsStep, IsSameReader};
ghost use Rattle.cert_check.specs.Verdicts.{IsBadAt};
ghost use Rattle.cert_check.specs.Seen.{seen};
ghost use Rattle.cert_check.specs.Whys.{why_of};

use crate::ending::Ending;
use crate::failure::Failure;
use crate::machine::Machine;
use crate::phase::Phase;
use crate::wanted::Wanted;
use crate::{LineWhy, OrderList};
use cert_rules::Why;
use cert_view::{Line, LineBuf, Spelling};
use mill_model::{MOST_ORDERS, Mill};
use std::alloc::{AllocError, Global};
use std::marker::Model;

/// A reader of a certificate that comes in pieces: it tests one line after another, and shows each that keeps its rules. It
/// keeps one line, the points so far, the plan that is being read, the path down the tree and the sums of a spread.
#[derive(Drop)]
pub struct Reader<'m> {
    machine: Machine<'m>,
    held: LineBuf,
    // whether the held line is whole and keeps its rules
    taken: bool,
    count: u64,
    failed: Option<Failure>,
    // for the orders of a column
    spare: Vec<u16>,
}

impl<'m> Model for Reader<'m> {
    ghost use Rattle.std.specs.Prelude.{[], vec_capacity, if◌then◌else◌};
    ghost use Rattle.cert_check.specs.Seen.{seen};
    ghost use Rattle.cert_check.specs.Held.{Reader, IsReady, last_of};

    ghost Value = { Reader };

    ghost view = { λ r. record {
      reading = record {
        mill = (seen r.machine).mill;
        wanted = (seen r.machine).wanted;
        kept = (seen r.machine).kept;
        count = r.count;
        held = (if r.taken then [] else r.held);
        failed = r.failed;
      };
      last = last_of r.taken r.held;
    } };

    ghost invariant = { λ r. IsReady r.held r.taken r.failed (vec_capacity r.spare) };
}

impl<'m> Reader<'m> {
    ghost use Rattle.cert_check.specs.Readings.{HasBadLine, RoomFalls, Stands, StandsOn, wanted_of};

    /// A reader that was fed nothing. It takes all the memory that a reader ever takes.
    ///
    /// # Errors
    ///
    /// Want of memory.
    pub fn new(alloc: Global, mill: &'m Mill, wanted: Wanted) -> Result<Reader<'m>, AllocError>
        ensures stands { IfOk result (λ c. Stands c.reading []) }
        ensures mill { IfOk result (λ c. c.reading.mill ≡ mill.now) }
        ensures wanted { IfOk result (λ c. c.reading.wanted ≡ wanted_of wanted) }
    {
        let machine = Machine::new(alloc, mill, wanted)?;
        let spare = Vec::with_capacity(alloc, usize::from(MOST_ORDERS))?;
        Ok(Reader {
            machine,
            held: LineBuf::new(),
            taken: false,
            count: 0,
            failed: None,
            spare,
        })
    }

    /// Whether a line is bad, so that no further bytes make a certificate that is wanted.
    pub fn failed(&self) -> bool
        ensures value { result ≡ is_some self.now.reading.failed }
        ensures exact { (bytes : List ℕ) → Stands self.now.reading bytes →
            (IsTrue result ↔ HasBadLine self.now.reading.wanted self.now.reading.mill bytes) }
    {
        self.failed.is_some()
    }

    /// Takes a piece, line by line, until one is bad. However the bytes were cut, the reader stands for all that it was fed.
    pub fn feed(&mut self, piece: &[u8])
        ensures stands { StandsOn self.old.reading self.new.reading piece.now }
        ensures room { RoomFalls self.old.reading self.new.reading (length piece.now) }
        ensures mill { self.new.reading.mill ≡ self.old.reading.mill }
        ensures wanted { self.new.reading.wanted ≡ self.old.reading.wanted }
    {
        let mut at = 0;
        while at < piece.len() && !self.failed() {
            at += self.take(&piece[at..]);
        }
    }

    /// What has become of the bytes: how their text has ended, or the first bad line.
    pub fn end(self) -> Result<Ending, Failure>
        ensures accepted { (bytes : List ℕ) → Stands self.entry.reading bytes →
            IfOk result (HasAccepted self.entry.reading bytes) }
        ensures bad { (bytes : List ℕ) → Stands self.entry.reading bytes → IfErr result (λ f.
            IsBadAt self.entry.reading.mill self.entry.reading.wanted bytes f.line f.why) }
        ensures limits { OnOk result (IsInLimits self.entry.reading.mill) }
    {
        let over = is_over(self.machine.phase());
        let part = has_part(self.taken, &self.held);
        let Reader {
            machine,
            held: _held,
            taken: _taken,
            count,
            failed,
            spare: _spare,
        } = self;
        match failed {
            Some(failure) => Err(failure),
            None if part => Err(failure_after(count, LineWhy::Spelling)),
            None if !over => Err(failure_after(count, LineWhy::End)),
            None => Ok(machine.into_ending()),
        }
    }

    /// Takes some bytes of a piece, up to the end of a line, and answers how many. A reader that runs on then shows that line.
    pub fn take(&mut self, piece: &[u8]) -> usize
        requires some { 0 < length piece.now }
        requires running { self.old.reading.failed ≡ None }
        ensures within { result ≤ length piece.now }
        ensures moves { 0 < result }
        ensures stands { StandsOn self.old.reading self.new.reading (take result piece.now) }
        ensures room { RoomFalls self.old.reading self.new.reading result }
        ensures moved { self.new.reading.failed ≡ None → IsMoved
            self.old.reading.held (take result piece.now) self.new.reading.held self.new.last }
        ensures mill { self.new.reading.mill ≡ self.old.reading.mill }
        ensures wanted { self.new.reading.wanted ≡ self.old.reading.wanted }
    {
        if is_over(self.machine.phase()) {
            self.failed = Some(failure_after(self.count, LineWhy::Extra));
            return piece.len();
        }
        self.take_line(piece)
    }

    // Takes some bytes where the text hasn't ended.
    fn take_line(&mut self, piece: &[u8]) -> usize
        requires some { 0 < length piece.now }
        requires running { self.old.reading.failed ≡ None }
        requires open { ¬ IsOver self.old.reading.kept.phase }
        ensures within { result ≤ length piece.now }
        ensures moves { 0 < result }
        ensures stands { StandsOn self.old.reading self.new.reading (take result piece.now) }
        ensures room { RoomFalls self.old.reading self.new.reading result }
        ensures moved { self.new.reading.failed ≡ None → IsMoved
            self.old.reading.held (take result piece.now) self.new.reading.held self.new.last }
        ensures mill { self.new.reading.mill ≡ self.old.reading.mill }
        ensures wanted { self.new.reading.wanted ≡ self.old.reading.wanted }
    {
        let_go(&mut self.held, self.taken);
        self.taken = false;
        let taken = self.held.feed(piece);
        match read_line(&self.held, &mut self.machine) {
            None => {}
            Some(Ok(())) => {
                self.count = self.count.saturating_add(1);
                self.taken = true;
            }
            Some(Err(why)) => {
                let why = with_column(why, &self.machine, &mut self.spare);
                self.failed = Some(failure_after(self.count, why));
            }
        }
        taken
    }

    /// How many orders the mill has.
    pub fn orders(&self) -> usize
        ensures { result ≡ length self.now.reading.mill.orders }
    {
        self.machine.orders()
    }

    /// The line that the last bytes ended, if it keeps its rules.
    pub fn last(&self) -> Option<Line<'_>>
        ensures line { result ≡ self.now.last }
    {
        if !self.taken {
            return None;
        }
        good_line(&self.held)
    }
}

// The held line, if it is whole and can be read.
fn good_line(held: &LineBuf) -> Option<Line<'_>>
    ensures { result ≡ line_of_read (next_line held.now) }
{
    match held.line() {
        None => None,
        Some(Err(_)) => None,
        Some(Ok(line)) => Some(line),
    }
}

// Whether bytes of a line are left.
fn has_part(taken: bool, held: &LineBuf) -> bool
    ensures { IsTrue result ↔ (0 < length (if taken then [] else held.now)) }
{
    !taken && held.held() > 0
}

// Lets go of a line that was taken.
fn let_go(held: &mut LineBuf, taken: bool)
    ensures { held.new ≡ (if taken then [] else held.old) }
{
    if taken {
        held.clear();
    }
}

// Whether nothing can stand next.
fn is_over(phase: Phase) -> bool
    ensures { IsTrue result ↔ IsOver phase }
{
    matches!(phase, Phase::Proved | Phase::Unfinished)
}

// The line after so many is the first bad one.
fn failure_after(count: u64, why: LineWhy) -> Failure
    ensures { result ≡ record { line = number_after count; why = why } }
{
    let line = count.saturating_add(1);
    Failure { line, why }
}

// Reads the held line, if it is whole, and lets the machine take it.
fn read_line(held: &LineBuf, machine: &mut Machine<'_>) -> Option<Result<(), Why>>
    ensures step { IsStep (seen machine.old) (seen machine.new) held.now result }
    ensures same { IsSameReader (seen machine.old) (seen machine.new) }
{
    match held.line() {
        None => None,
        Some(Err(Spelling::Form)) => Some(Err(Why::Spelling)),
        Some(Err(Spelling::Range)) => Some(Err(Why::Range)),
        Some(Ok(line)) => match machine.line(&line) {
            Ok(()) => Some(Ok(())),
            Err(why) => Some(Err(why)),
        },
    }
}

// The why with the column that a leaf exceeds.
fn with_column(why: Why, machine: &Machine<'_>, spare: &mut Vec<u16>) -> LineWhy
    requires room { most_orders ≤ vec_capacity spare.old }
    requires found { why ≡ Why.Column → HasColumn (seen machine.now) }
    ensures why { why_of result ≡ why }
    ensures column { CarriesColumn (seen machine.now).bad result }
{
    match why {
        Why::Column => {
            let (kind, orders) = machine.bad_column();
            let orders = take_orders(orders, spare);
            LineWhy::Column { kind, orders }
        }
        other => LineWhy::plain(other),
    }
}

// Moves orders into a list, in memory that was taken before.
fn take_orders(orders: &[u16], spare: &mut Vec<u16>) -> OrderList
    requires room { most_orders ≤ vec_capacity spare.old }
    requires few { length orders.now ≤ most_orders }
    ensures { result ≡ orders.now }
{
    spare.clear();
    for order in orders {
        spare.push_reserved(*order);
    }
    let empty = Vec::new(*spare.allocator());
    OrderList::new(std::mem::replace(spare, empty))
}
