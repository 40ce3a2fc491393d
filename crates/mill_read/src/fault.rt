ghost use Rattle.std.specs.Prelude.{◌≡◌};
ghost use Rattle.mill_read.specs.declared.fault.TextError.TheVariants.{Text, Memory};

use std::alloc::AllocError;
use thiserror::Error;

/// What is wrong with a word.
#[derive(Clone, Copy, Debug, PartialEq, Eq, Error)]
pub enum Why {
    /// The text ends where a word has to stand.
    #[error("a word is missing")]
    Missing,
    /// A number has to stand here, and the word isn't ASCII digits alone.
    #[error("this is no number")]
    NotNumber,
    /// The number is outside the range of its place.
    #[error("this number is out of range")]
    Range,
    /// The number is none of the mill's colours.
    #[error("this is no colour of the mill")]
    Colour,
    /// The word before a slab is neither `new` nor `old`.
    #[error("this is neither new nor old")]
    Kind,
    /// The word stands after the last place.
    #[error("this word is one too many")]
    Extra,
}

/// The first word of a text that can't stand, and why. Words are numbered from 1; where a word is missing, this is the
/// number of words plus 1.
#[derive(Clone, Copy, Debug, PartialEq, Eq, Error)]
#[error("word {word}: {why}")]
pub struct TextFault {
    /// The number of the word.
    pub word: u32,
    /// What is wrong with it.
    pub why: Why,
}

impl TextFault {
    pub(crate) fn new(word: u32, why: Why) -> TextFault
        ensures { result ≡ record { word = word; why = why } }
    {
        TextFault { word, why }
    }
}

/// Why a text wasn't read: by its first fault, or for want of memory, which may come for any text.
#[derive(Clone, Copy, Debug, PartialEq, Eq, Error)]
pub enum TextError {
    /// The first word that can't stand.
    #[error("{0}")]
    Text(TextFault),
    /// There was no memory for the lists.
    #[error("out of memory")]
    Memory,
}

impl From<TextFault> for TextError {
    ghost from_gives = { λ fault e. e ≡ Text fault };

    fn from(fault: TextFault) -> TextError {
        TextError::Text(fault)
    }
}

impl From<AllocError> for TextError {
    ghost from_gives = { λ _ e. e ≡ Memory };

    fn from(_: AllocError) -> TextError {
        TextError::Memory
    }
}
