//! The lines of a script, one after another.
ghost use Rattle.std.specs.Prelude.{◌≡◌, ◌+◌, ◌-◌, ◌^◌, ◌<◌, ◌≤◌, length, IfOk, IfSome, IfErr};
ghost use Rattle.mill_model.specs.Mill.{most_orders};
ghost use Rattle.session_script.specs.Numbers.{parts_of};
ghost use Rattle.session_script.specs.Limits.{IsFit};
ghost use Rattle.session_script.specs.Following.{GivesNext, GoesOn, IsAfterLast};

use crate::error::LineError;
use crate::line::{Line, Why};
use crate::parts::Parts;
use crate::reading::read_line;
use std::alloc::Global;
use std::marker::Model;

/// The lines of a script that are left, and the number of the first of them, from 1.
#[derive(Drop)]
pub struct Lines<'a> {
    pieces: Parts<'a>,
    number: u64,
}

impl<'a> Model for Lines<'a> {
    ghost use Rattle.session_script.specs.Following.{LinesLeft};

    ghost Value = { LinesLeft };

    ghost view = { λ l. record { number = l.number; pieces = l.pieces.parts } };

    ghost use Rattle.std.specs.Prelude.{◌≡◌};

    ghost invariant = { λ l. l.pieces.mark ≡ 10 };
}

impl<'a> Lines<'a> {
    /// All lines of a script.
    pub fn new(bytes: &'a [u8]) -> Lines<'a>
        ensures { result ≡ record { number = 1; pieces = parts_of 10 bytes.now } }
    {
        Lines {
            pieces: Parts::new(b'\n', bytes),
            number: 1,
        }
    }

    /// The number of the next line, from 1.
    pub fn number(&self) -> u64
        ensures { result ≡ self.now.number }
    {
        self.number
    }

    /// What the next line asks for, where so many orders stand, or none at the end of the script.
    ///
    /// `Bad` has the first rule that the line breaks; the reader's number is then still that of the
    /// line. `Memory` may come for any line.
    pub fn next(&mut self, alloc: Global, orders: u16) -> Result<Option<Line>, LineError>
        requires orders { orders ≤ most_orders }
        requires room { self.old.number < 2 ^ 64 - 1 }
        ensures given { GivesNext orders self.old self.new result }
        ensures goes_on { IfOk result (λ line. IfSome line (λ _. GoesOn self.old self.new)) }
        ensures fit { IfOk result (λ line. IfSome line (IsFit orders)) }
        ensures number { IfErr result (λ _. self.new.number ≡ self.old.number) }
    {
        let first = self.number == 1;
        let Some(piece) = self.pieces.next() else {
            return Ok(None);
        };
        if self.pieces.is_at_end() {
            return after_last(piece, first);
        }
        let line = read_line(alloc, piece, first, orders)?;
        self.number += 1;
        Ok(Some(line))
    }
}

// What stands behind the last line feed: nothing, or a line that lacks one. A script has a line.
fn after_last(piece: &[u8], first: bool) -> Result<Option<Line>, LineError>
    ensures { IsAfterLast piece.now first result }
{
    if piece.is_empty() && !first {
        Ok(None)
    } else {
        Err(LineError::Bad(Why::Spelling))
    }
}
