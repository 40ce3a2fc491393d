//! The words of a text, one after another.
ghost use Rattle.std.specs.Prelude.{◌≡◌, ◌+◌, ◌-◌, ◌^◌, ◌<◌, ◌≤◌, ◌∷◌, [], ℕ, true, false, min, is_some, IfSome, IfOk, IfErr, OnOk, MatchOption, take, drop, length, slice_index, All};
ghost use Rattle.std.specs.Bool.{OnTrue, OnFalse};
ghost use Rattle.std.specs.Option.{option_to_list};
ghost use Rattle.std.specs.Str.Parse.{digits_value};
ghost use Rattle.mill_model.specs.Mill.{IsBetween};
ghost use Rattle.mill_read.specs.Words.{words, is_space, is_number};
ghost use Rattle.mill_read.specs.Reading.{number_at, GivesAt, text};
ghost use Rattle.mill_read.specs.SlabWords.{is_new_at};

use crate::fault::{TextFault, Why};
use std::marker::Model;

/// The words that are left, and the number of the first of them.
#[derive(Drop)]
pub struct Words<'a> {
    rest: &'a [u8],
    number: u32,
}

impl<'a> Model for Words<'a> {
    ghost use Rattle.mill_read.specs.Words.{words};
    ghost use Rattle.mill_read.specs.WordsLeft.{WordsLeft};

    ghost Value = { WordsLeft };

    ghost view = { λ w. record { number = w.number; words = words w.rest.now } };
}

// Above every range.
const LARGE: u32 = 65536;

fn is_white_space(byte: u8) -> bool
    ensures { result ≡ is_space byte }
{
    matches!(byte, 9..=13 | b' ')
}

// The bytes from the first that is no white space.
fn skip_white_space(bytes: &[u8]) -> &[u8]
    ensures words { words result.now ≡ words bytes.now }
    ensures first { 0 < length result.now → is_space (slice_index result.now 0) ≡ false }
{
    let mut rest = bytes;
    while let [first, after @ ..] = rest {
        if !is_white_space(*first) {
            break;
        }
        rest = after;
    }
    rest
}

// How many bytes from the front on are no white space.
fn word_len(bytes: &[u8]) -> usize
    ensures bound { result ≤ length bytes.now }
    ensures word { All (λ b. is_space b ≡ false) (take result bytes.now) }
    ensures end { result < length bytes.now → is_space (slice_index bytes.now result) ≡ true }
{
    for (i, byte) in bytes.iter().enumerate() {
        if is_white_space(*byte) {
            return i;
        }
    }
    bytes.len()
}

// The number that a word spells, or some large one where it is large.
fn number_of(word: &[u8]) -> Option<u32>
    ensures digits { is_some result ≡ is_number word.now }
    ensures value { IfSome result (λ n. n ≡ min (digits_value 10 word.now) 65536) }
{
    let mut value: u32 = 0;
    for byte in word {
        if !byte.is_ascii_digit() {
            return None;
        }
        value = (value * 10 + u32::from(*byte - b'0')).min(LARGE);
    }
    Some(value)
}

impl<'a> Words<'a> {
    pub fn new(bytes: &'a [u8]) -> Words<'a>
        ensures { result ≡ text bytes.now }
    {
        Words {
            rest: bytes,
            number: 1,
        }
    }

    // Takes the next word.
    fn next_word(&mut self) -> Option<&'a [u8]>
        requires { self.old.number < 2 ^ 31 }
        ensures word { MatchOption result (self.old.words ≡ []) (λ w. self.old.words ≡ w.now ∷ self.new.words) }
        ensures number { self.new.number ≡ self.old.number + length (option_to_list result) }
    {
        let rest = skip_white_space(self.rest);
        let (word, after) = rest.split_at(word_len(rest));
        if word.is_empty() {
            return None;
        }
        self.rest = after;
        self.number += 1;
        Some(word)
    }

    /// Reads a number in a range, where outside of it means the given why.
    #[tactic(auto, unfolding(crate::specs::Reading::number_at))]
    pub fn number(&mut self, outside: Why, low: u16, high: u16) -> Result<u16, TextFault>
        requires { self.old.number < 2 ^ 31 }
        ensures given { GivesAt result self.new (number_at outside low high self.old) }
        ensures range { IfOk result (IsBetween low high) }
        ensures number { OnOk result (self.new.number ≡ self.old.number + 1) }
    {
        let place = self.number;
        let Some(word) = self.next_word() else {
            return Err(TextFault::new(place, Why::Missing));
        };
        match number_of(word) {
            None => Err(TextFault::new(place, Why::NotNumber)),
            Some(value) if u32::from(low) <= value && value <= u32::from(high) => Ok(value as u16),
            Some(_) => Err(TextFault::new(place, outside)),
        }
    }

    /// Reads the word `new` or `old`, and tells whether it is `new`.
    #[tactic(auto, unfolding(crate::specs::SlabWords::is_new_at))]
    pub fn is_new(&mut self) -> Result<bool, TextFault>
        requires { self.old.number < 2 ^ 31 }
        ensures given { GivesAt result self.new (is_new_at self.old) }
        ensures number { OnOk result (self.new.number ≡ self.old.number + 1) }
    {
        let place = self.number;
        match self.next_word() {
            None => Err(TextFault::new(place, Why::Missing)),
            Some(word) if word == b"new".as_slice() => Ok(true),
            Some(word) if word == b"old".as_slice() => Ok(false),
            Some(_) => Err(TextFault::new(place, Why::Kind)),
        }
    }

    /// Whether no word is left.
    pub fn is_at_end(&self) -> bool
        ensures end { OnTrue result (self.now.words ≡ []) }
        ensures more { OnFalse result (0 < length self.now.words) }
    {
        skip_white_space(self.rest).is_empty()
    }

    /// Sees that no word is left.
    pub fn end(mut self) -> Result<(), TextFault>
        requires { self.number < 2 ^ 31 }
        ensures none { OnOk result (self.entry.words ≡ []) }
        ensures extra { IfErr result (λ e. (e ≡ record { word = self.entry.number; why = Why.Extra }) × (0 < length self.entry.words)) }
    {
        let place = self.number;
        match self.next_word() {
            None => Ok(()),
            Some(_) => Err(TextFault::new(place, Why::Extra)),
        }
    }
}
