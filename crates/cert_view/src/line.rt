//! A line of a certificate, and how its text is read.
ghost use Rattle.std.specs.Prelude.{◌≡◌, ◌≤◌, ◌==◌, length, IfOk};
ghost use Rattle.std.specs.List.{position_or_len};
ghost use Rattle.cert_view.specs.Line.{line_of, line_of_words, line_with};
ghost use Rattle.cert_view.specs.Numbers.{first_word, words_after, IsSpaced};
ghost use Rattle.cert_view.specs.Text.{IsLine};

use crate::form::{Form, form_of};
use crate::nums::{Nums, count_numbers};
use thiserror::Error;

/// A line of a certificate, with its numbers lent from the bytes. Orders and surplus slabs are numbered from 1, as they
/// stand in the text.
#[derive(Drop)]
pub enum Line<'a> {
    /// `slabfront 1`, the first line of a certificate whose splits have no marks.
    Header,
    /// `slabfront 2`, the first line of a certificate whose splits have marks.
    Header2,
    /// `point L C`: the loss and the number of new slabs of a point.
    Point(Nums<'a>),
    /// `new u o..`: a new slab of size u, and its orders, at least one.
    New(Nums<'a>),
    /// `old s o..`: a surplus slab, and its orders, at least one.
    Old(Nums<'a>),
    /// `pair i j`: a split by whether two orders lie on one slab.
    Pair(Nums<'a>),
    /// `put o s`: a split by whether an order lies on a surplus slab.
    Put(Nums<'a>),
    /// `leaf l m p.. q..`: the prices of a leaf, at least two numbers.
    Leaf(Nums<'a>),
    /// `done`: what follows is the last tree.
    Done,
    /// `cut`: what follows is the open tree.
    Cut,
    /// `open`: an end of the open tree.
    Open,
    /// `bare`: the mark of a split for which neither prices nor a cover were found.
    Bare,
    /// `plain`: the mark of a split that claims nothing.
    Plain,
    /// `spread d`: the mark of a split with a cover, and the denominator of its multipliers.
    Spread(Nums<'a>),
    /// `cnew x u o..`: a share of a cover: its multiplier, the size of a new slab, and its orders, at least one.
    CNew(Nums<'a>),
    /// `cold x s o..`: a share of a cover: its multiplier, a surplus slab, and its orders, at least one.
    COld(Nums<'a>),
}

/// Why a line can't be read.
#[derive(Clone, Copy, Debug, PartialEq, Eq, Error)]
pub enum Spelling {
    /// The line has no line feed, is longer than 8,192 bytes with it, or has none of the forms.
    #[error("the line has none of the forms of a certificate's lines")]
    Form,
    /// The line has a form, and one of its numbers is beyond 2^62 in absolute value.
    #[error("a number of the line is beyond 2^62 in absolute value")]
    Range,
}

// The line that a text is, without its line feed.
#[tactic(auto, unfolding(crate::specs::Line::line_of))]
pub(crate) fn read_line(text: &[u8]) -> Result<Line<'_>, Spelling>
    ensures line { result ≡ line_of text.now }
    ensures good { IfOk result IsLine }
{
    if text == b"slabfront 1".as_slice() {
        Ok(Line::Header)
    } else if text == b"slabfront 2".as_slice() {
        Ok(Line::Header2)
    } else {
        read_words(text)
    }
}

// The line that a text of a word and numbers is.
fn read_words(text: &[u8]) -> Result<Line<'_>, Spelling>
    ensures { result ≡ line_of_words (first_word text.now) (words_after text.now) }
{
    let (word, after) = split_word(text);
    let Some((count, within)) = count_numbers(after) else {
        return Err(Spelling::Form);
    };
    let Some(form) = form_of(word, count) else {
        return Err(Spelling::Form);
    };
    if !within {
        return Err(Spelling::Range);
    }
    Ok(line_with(form, Nums::new(after, count)))
}

// The line of a form with its numbers.
fn line_with(form: Form, numbers: Nums<'_>) -> Line<'_>
    ensures { result ≡ line_with form numbers.entry }
{
    match form {
        Form::Point => Line::Point(numbers),
        Form::New => Line::New(numbers),
        Form::Old => Line::Old(numbers),
        Form::Pair => Line::Pair(numbers),
        Form::Put => Line::Put(numbers),
        Form::Leaf => Line::Leaf(numbers),
        Form::Done => Line::Done,
        Form::Cut => Line::Cut,
        Form::Open => Line::Open,
        Form::Bare => Line::Bare,
        Form::Plain => Line::Plain,
        Form::Spread => Line::Spread(numbers),
        Form::CNew => Line::CNew(numbers),
        Form::COld => Line::COld(numbers),
    }
}

// The first word, and what stands from the space on that ends it.
fn split_word(text: &[u8]) -> (&[u8], &[u8])
    ensures word { result.0.now ≡ first_word text.now }
    ensures words { words_after result.1.now ≡ words_after text.now }
    ensures spaced { IsSpaced result.1.now }
{
    text.split_at(position_or_len(text, b' '))
}

// The first place of a byte, or the length.
#[tactic(auto, using(std::proofs::lemmas::List::Sums::position_or_len_is))]
pub(crate) fn position_or_len(bytes: &[u8], byte: u8) -> usize
    ensures value { result ≡ position_or_len (λ b. b == byte) bytes.now }
    ensures within { result ≤ length bytes.now }
{
    for (i, b) in bytes.iter().enumerate() {
        if *b == byte {
            return i;
        }
    }
    bytes.len()
}
