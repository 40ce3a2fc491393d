//! Numbers of a line, lent from its bytes.
ghost use Rattle.std.specs.Prelude.{◌≡◌, ◌<◌, ◌∷◌, ◌↔◌, All, IfSome, IsTrue, drop, length, option_map, slice_get};
ghost use Rattle.cert_view.specs.Number.{IsWithin};
ghost use Rattle.cert_view.specs.Numbers.{numbers_of, words_after, first_word, after_word, AreCounted, AreSpelled, IsSpaced};
ghost use Rattle.cert_view.specs.Reading.{count_of, read_number};

use crate::number::{Number, front_number};
use std::marker::Model;

/// The numbers of a line: a part of its bytes, lent and not copied, and seen as the whole numbers that it spells.
/// Each is between -2^62 and 2^62.
#[derive(Drop)]
pub struct Nums<'a> {
    bytes: &'a [u8],
    count: usize,
}

impl<'a> Model for Nums<'a> {
    ghost use Rattle.std.specs.Prelude.{ℤ, List};
    ghost use Rattle.cert_view.specs.Numbers.{numbers_of, AreCounted};

    ghost Value = { List ℤ };

    ghost view = { λ n. numbers_of n.bytes.now };

    ghost invariant = { λ n. AreCounted n.bytes.now n.count };
}

impl<'a> Nums<'a> {
    // The numbers that the bytes spell, which are this many.
    pub(crate) fn new(bytes: &'a [u8], count: usize) -> Nums<'a>
        requires { AreCounted bytes.now count }
        ensures { result ≡ numbers_of bytes.now }
    {
        Nums { bytes, count }
    }

    /// How many numbers there are.
    pub fn len(&self) -> usize
        ensures value { result ≡ length self.now }
        ensures within { All IsWithin self.now }
    {
        self.count
    }

    /// Whether there is no number.
    pub fn is_empty(&self) -> bool
        ensures { IsTrue result ↔ (length self.now ≡ 0) }
    {
        self.count == 0
    }

    /// The number at a place below `len`. It reads the numbers before it, so `copy_to` serves for all of them.
    pub fn get(&self, i: usize) -> i64
        requires { i < length self.now }
        ensures value { slice_get self.now i ≡ Some result }
        ensures within { IsWithin result }
    {
        number_at(self.bytes, i)
    }

    /// Writes all numbers in one pass, into as many places as there are numbers.
    pub fn copy_to(&self, out: &mut [i64])
        requires { length out.old ≡ length self.now }
        ensures value { out.new ≡ self.now }
        ensures within { All IsWithin self.now }
    {
        copy_numbers(self.bytes, out);
    }
}

// The number at a place.
fn number_at(bytes: &[u8], i: usize) -> i64
    requires spelled { AreSpelled bytes.now }
    requires within { i < length (numbers_of bytes.now) }
    ensures { slice_get (numbers_of bytes.now) i ≡ Some result }
{
    let mut rest = bytes;
    for _skipped in 0..i {
        let (_, after) = next_number(rest);
        rest = after;
    }
    let (number, _) = next_number(rest);
    number
}

// Writes all numbers in one pass.
fn copy_numbers(bytes: &[u8], out: &mut [i64])
    requires spelled { AreSpelled bytes.now }
    requires len { length out.old ≡ length (numbers_of bytes.now) }
    ensures { out.new ≡ numbers_of bytes.now }
{
    let mut rest = bytes;
    for place in out.iter_mut() {
        let (number, after) = next_number(rest);
        *place = number;
        rest = after;
    }
}

// The first number, and what stands after it.
fn next_number(bytes: &[u8]) -> (i64, &[u8])
    requires spelled { AreSpelled bytes.now }
    requires some { 0 < length (numbers_of bytes.now) }
    ensures numbers { numbers_of bytes.now ≡ result.0 ∷ numbers_of result.1.now }
    ensures spelled { AreSpelled result.1.now }
{
    let Some((number, after)) = number_after_space(bytes) else {
        unreachable!()
    };
    match number {
        Number::Within(value) => (value, after),
        Number::Beyond => unreachable!(),
    }
}

// How many numbers the bytes are, each after one space, and whether all are in the range.
pub(crate) fn count_numbers(bytes: &[u8]) -> Option<(usize, bool)>
    requires { IsSpaced bytes.now }
    ensures { result ≡ count_of (words_after bytes.now) }
{
    let mut rest = bytes;
    let mut count = 0;
    let mut within = true;
    while !rest.is_empty() {
        let (number, after) = number_after_space(rest)?;
        match number {
            Number::Within(_) => {}
            Number::Beyond => within = false,
        }
        rest = after;
        count += 1;
    }
    Some((count, within))
}

// The number that the word after the space at the front spells, if it spells one, and what stands behind it.
fn number_after_space(bytes: &[u8]) -> Option<(Number, &[u8])>
    requires { 0 < length bytes.now }
    ensures number { option_map (λ r. r.0) result ≡ read_number (first_word (drop 1 bytes.now)) }
    ensures after { IfSome result (λ r. r.1.now ≡ after_word (drop 1 bytes.now)) }
{
    front_number(&bytes[1..])
}
