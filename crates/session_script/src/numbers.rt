//! The numbers of a line.
ghost use Rattle.std.specs.Prelude.{◌≡◌, true, option_map, IfOk};
ghost use Rattle.std.specs.Str.Parse.{digits_value};
ghost use Rattle.std.specs.Char.{is_ascii_digit};
ghost use Rattle.std.specs.List.{list_all};
ghost use Rattle.session_script.specs.Words.{is_numeral as is_numeral_of, starts_well as is_well_started};
ghost use Rattle.session_script.specs.Numbers.{AreRead, capped};

use crate::parts::Parts;
use std::alloc::{AllocError, Global};

// Above every range.
const LARGE: u32 = 65536;

// The numbers that all the words that are left spell, with a large one in place of a larger one, or
// none where a word spells none.
pub(crate) fn numbers(alloc: Global, mut words: Parts<'_>) -> Result<Option<Vec<u32>>, AllocError>
    ensures { IfOk result (λ read. AreRead words.entry.parts (option_map (λ v. v.items) read)) }
{
    let mut list = Vec::new(alloc);
    while let Some(word) = words.next() {
        if !is_numeral(word) {
            return Ok(None);
        }
        list.push(value_of(word))?;
    }
    Ok(Some(list))
}

// Whether a word is digits alone, of which the first isn't `0`, unless it stands alone.
fn is_numeral(word: &[u8]) -> bool
    ensures { result ≡ is_numeral_of word.now }
{
    are_digits(word) && starts_well(word)
}

fn are_digits(word: &[u8]) -> bool
    ensures { result ≡ list_all is_ascii_digit word.now }
{
    word.iter().all(|byte| byte.is_ascii_digit())
}

fn starts_well(word: &[u8]) -> bool
    ensures { result ≡ is_well_started word.now }
{
    match word {
        [] => false,
        [_] => true,
        [first, ..] => *first != b'0',
    }
}

// The number that digits spell, or some large one where it is larger.
fn value_of(digits: &[u8]) -> u32
    requires { list_all is_ascii_digit digits.now ≡ true }
    ensures { result ≡ capped (digits_value 10 digits.now) }
{
    let mut value: u32 = 0;
    for byte in digits {
        value = (value * 10 + u32::from(*byte - b'0')).min(LARGE);
    }
    value
}
