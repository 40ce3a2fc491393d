//! A buffer for one line, fed in pieces.
ghost use Rattle.std.specs.Prelude.{◌≡◌, ◌+◌, ◌≤◌, ◌<◌, ◌++◌, ◌↔◌, [], length, take, IfOk, IfSome, IsNone, OnSome};
ghost use Rattle.cert_view.specs.Held.{taken_of, IsOneLine, IsPart, IsWhole};
ghost use Rattle.cert_view.specs.Line.{most_line, next_line};
ghost use Rattle.cert_view.specs.Text.{IsLine};

use crate::line::{Line, Spelling, position_or_len, read_line};
use crate::view::LONGEST;
use std::marker::Model;

/// The bytes of a line that have come so far, kept in place. It is seen as the list of these bytes.
#[derive(Drop)]
pub struct LineBuf {
    bytes: [u8; LONGEST],
    len: usize,
}

impl Model for LineBuf {
    ghost use Rattle.std.specs.Prelude.{ℕ, List, take};
    ghost use Rattle.cert_view.specs.Held.{AreHeld};

    ghost Value = { List ℕ };

    ghost view = { λ b. take b.len b.bytes };

    ghost invariant = { λ b. AreHeld b.bytes b.len };
}

impl LineBuf {
    /// A buffer that holds no byte.
    pub fn new() -> LineBuf
        ensures { result ≡ [] }
    {
        LineBuf {
            bytes: [0; LONGEST],
            len: 0,
        }
    }

    /// How many bytes are held.
    pub fn held(&self) -> usize
        ensures value { result ≡ length self.now }
        ensures within { result ≤ most_line }
    {
        self.len
    }

    /// Lets go of all bytes.
    pub fn clear(&mut self)
        ensures { self.new ≡ [] }
    {
        self.len = 0;
    }

    /// The held line; none exactly where the held bytes have no line feed and are fewer than 8,192. It is what `CertView`
    /// gives first for the held bytes, whatever bytes come after them.
    pub fn line(&self) -> Option<Result<Line<'_>, Spelling>>
        ensures part { IsNone result ↔ IsPart self.now }
        ensures line { OnSome result (result ≡ next_line self.now) }
        ensures whole { OnSome result (IsWhole self.now) }
        ensures good { IfSome result (λ read. IfOk read IsLine) }
    {
        line_of_held(&self.bytes[..self.len])
    }

    /// Takes the bytes of a piece up to and with its first line feed, or until 8,192 bytes are held, and answers how many
    /// it took. No line may be held yet.
    pub fn feed(&mut self, piece: &[u8]) -> usize
        requires { IsPart self.old }
        ensures taken { result ≡ taken_of (length self.old) piece.now }
        ensures held { self.new ≡ self.old ++ take result piece.now }
        ensures within { result ≤ length piece.now }
        ensures some { 0 < length piece.now → 0 < result }
    {
        let taken = taken_of(self.len, piece);
        let len = append(&mut self.bytes, self.len, &piece[..taken]);
        self.len = len;
        taken
    }
}

// The line that at most one line's bytes are; none where they are less than a line.
fn line_of_held(held: &[u8]) -> Option<Result<Line<'_>, Spelling>>
    requires within { length held.now ≤ most_line }
    requires one_line { IsOneLine held.now }
    ensures part { IsNone result ↔ IsPart held.now }
    ensures line { OnSome result (result ≡ next_line held.now) }
    ensures whole { OnSome result (IsWhole held.now) }
    ensures good { IfSome result (λ read. IfOk read IsLine) }
{
    let Some((last, text)) = held.split_last() else {
        return None;
    };
    if *last == b'\n' {
        Some(read_line(text))
    } else if held.len() == LONGEST {
        Some(Err(Spelling::Form))
    } else {
        None
    }
}

// How many bytes of a piece are taken where so many are held. No more are looked at than there is room for.
fn taken_of(held: usize, piece: &[u8]) -> usize
    requires { held ≤ most_line }
    ensures { result ≡ taken_of held piece.now }
{
    let most = piece.len().min(LONGEST - held);
    (position_or_len(&piece[..most], b'\n') + 1).min(most)
}

// Writes a piece behind the first so many bytes, and answers how many they are then.
fn append(bytes: &mut [u8], len: usize, piece: &[u8]) -> usize
    requires { len + length piece.now ≤ length bytes.old }
    ensures len { result ≡ len + length piece.now }
    ensures bytes { take result bytes.new ≡ take len bytes.old ++ piece.now }
{
    let end = len + piece.len();
    bytes[len..end].copy_from_slice(piece);
    end
}
