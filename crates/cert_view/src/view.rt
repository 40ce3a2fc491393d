//! The view that gives one line after the other.
ghost use Rattle.std.specs.Prelude.{◌≡◌, ◌<◌, IfSome, IfOk, OnSome, length};
ghost use Rattle.cert_view.specs.Line.{next_line, after_line};
ghost use Rattle.cert_view.specs.Text.{IsLine};

use crate::line::{Line, Spelling, position_or_len, read_line};
use std::marker::Model;

// The most bytes of a line, with its line feed.
pub(crate) const LONGEST: usize = 8192;

/// The lines of bytes, one after the other. It is seen as the bytes that are left.
#[derive(Drop)]
pub struct CertView<'a> {
    rest: &'a [u8],
}

impl<'a> Model for CertView<'a> {
    ghost use Rattle.std.specs.Prelude.{ℕ, List};

    ghost Value = { List ℕ };

    ghost view = { λ v. v.rest.now };
}

impl<'a> CertView<'a> {
    /// The lines of these bytes.
    pub fn new(bytes: &'a [u8]) -> CertView<'a>
        ensures { result ≡ bytes.now }
    {
        CertView { rest: bytes }
    }

    /// The next line; none where no byte is left.
    ///
    /// `Form` comes where the line has no line feed, is longer than 8,192 bytes with it, or has none of the forms;
    /// `Range` where it has a form and a number is beyond 2^62 in absolute value, whatever its length. Then too the view
    /// stands after the line: behind its line feed, or at the end where there is none. A line that is given has as many
    /// numbers as its form wants.
    #[tactic(auto, unfolding(crate::specs::Line::next_line))]
    pub fn next(&mut self) -> Option<Result<Line<'a>, Spelling>>
        ensures line { result ≡ next_line self.old }
        ensures good { IfSome result (λ read. IfOk read IsLine) }
        ensures rest { self.new ≡ after_line self.old }
        ensures shorter { OnSome result (length self.new < length self.old) }
    {
        let bytes = self.rest;
        if bytes.is_empty() {
            return None;
        }
        let end = position_or_len(bytes, b'\n');
        if end == bytes.len() {
            self.rest = &[];
            return Some(Err(Spelling::Form));
        }
        self.rest = &bytes[end + 1..];
        if end < LONGEST {
            Some(read_line(&bytes[..end]))
        } else {
            Some(Err(Spelling::Form))
        }
    }
}
