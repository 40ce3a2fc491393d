// The words of a check, and what they ask for.
ghost use Rattle.std.specs.Prelude.{◌≡◌, ℕ, ◌+◌, ◌^◌, ◌<◌, map, decimal, IfOk, IfSome, IfNone};
ghost use Rattle.std.specs.Option.{option_and_then};
ghost use Rattle.std.specs.String.{string_bytes};
ghost use Rattle.mill_model.specs.Mill.{IsBetween};
ghost use Rattle.run_words.specs.Words.{is_file_word, file_named, number_named, word_at, name_bytes};
ghost use Rattle.front_check.specs.Words.{no_options, with_option as with_one_more, options_from, check_of, check_words};
ghost use Rattle.front_check.specs.Jobs.{words_of, options_of, word_after, IsParsed, IsInRange, AreInRange};

use itoa::Buffer;
use mill_model::MOST_COLOUR_LIMIT;
use thiserror::Error;

const DEFAULT_COLOURS: u16 = 2;

/// What the words ask for, with the names of the files.
#[derive(Clone, Copy, Debug, PartialEq, Eq)]
pub enum CheckJob<'a> {
    /// What the certificate in the file `cert` shows of a mill: that of an order file, with the yard of a yard file where one is
    /// named, and a colour limit of 1 to 3.
    Check {
        orders: &'a str,
        cert: &'a str,
        yard: Option<&'a str>,
        colours: u16,
    },
}

/// The number of the first word that can't stand, from 1, or the number of words plus 1 where a word is missing.
#[derive(Clone, Copy, Debug, PartialEq, Eq, Error)]
#[error("word {word} of the command line can't stand, or is missing")]
pub struct CheckUsage {
    pub word: u32,
}

// The options that were read so far.
#[derive(Clone, Copy)]
struct Options<'a> {
    yard: Option<&'a str>,
    colours: Option<u16>,
}

/// What the words after the program's name ask for: `check ORDERS CERT`, and then the options `--yard FILE` and `--colours P`,
/// in any order, each at most once. The name of a file isn't empty and doesn't begin with `-`; a number has no leading zero. It
/// takes no memory.
pub fn read_check_words(words: &[String]) -> Result<CheckJob<'_>, CheckUsage>
    ensures job { IsParsed words_of result (check_words (map string_bytes words.now)) }
    ensures range { IfOk result IsInRange }
{
    match words {
        [command, rest @ ..] if command.as_str() == "check" => check(rest),
        _ => Err(CheckUsage { word: 1 }),
    }
}

// The words after `check`.
fn check(words: &[String]) -> Result<CheckJob<'_>, CheckUsage>
    ensures job { IsParsed words_of result (check_of (map string_bytes words.now)) }
    ensures range { IfOk result IsInRange }
{
    let (orders, rest) = file_word(words, 2)?;
    let (cert, rest) = file_word(rest, 3)?;
    let options = read_options(rest)?;
    Ok(CheckJob::Check {
        orders,
        cert,
        yard: options.yard,
        colours: options.colours.unwrap_or(DEFAULT_COLOURS),
    })
}

// The words that are left are options. The first has the number 4.
fn read_options(words: &[String]) -> Result<Options<'_>, CheckUsage>
    ensures options { IsParsed options_of result (options_from 4 no_options (map string_bytes words.now)) }
    ensures range { IfOk result AreInRange }
{
    let mut options = Options {
        yard: None,
        colours: None,
    };
    let mut rest = words;
    'options: loop {
        match rest {
            [] => return Ok(options),
            [name] => return options.with_option(name.as_str(), None),
            [name, value, after @ ..] => {
                options = options.with_option(name.as_str(), Some(value.as_str()))?;
                rest = after;
            }
        }
    }
}

impl<'a> Options<'a> {
    // The number of the word after these options.
    fn next_word(&self) -> u32
        ensures { result ≡ word_after (options_of self.now) }
    {
        let yard = if self.yard.is_some() { 2 } else { 0 };
        let colours = if self.colours.is_some() { 2 } else { 0 };
        4 + yard + colours
    }

    // These options with one more: its name, and the word after that, where there is one.
    fn with_option(self, name: &str, value: Option<&'a str>) -> Result<Options<'a>, CheckUsage>
        requires range { AreInRange self }
        ensures options { IsParsed options_of result (with_one_more (word_after (options_of self.entry)) (options_of self.entry) name.now (name_bytes value.entry)) }
        ensures range { IfOk result AreInRange }
        ensures next { IfOk result (λ options. word_after (options_of options) ≡ word_after (options_of self.entry) + 2) }
    {
        let number = self.next_word();
        let wrong = CheckUsage { word: number + 1 };
        if name == "--yard" && self.yard.is_none() {
            let yard = given_file(value).ok_or(wrong)?;
            return Ok(Options {
                yard: Some(yard),
                ..self
            });
        }
        if name == "--colours" && self.colours.is_none() {
            let colours = given_number(value, 1, u64::from(MOST_COLOUR_LIMIT)).ok_or(wrong)?;
            return Ok(Options {
                colours: Some(colours as u16),
                ..self
            });
        }
        Err(CheckUsage { word: number })
    }
}

// The first of the words, which has this number and is a file word, and the words after it.
fn file_word(words: &[String], number: u32) -> Result<(&str, &[String]), CheckUsage>
    ensures { IsParsed (λ r. (r.0.now, map string_bytes r.1.now)) result (word_at file_named number (map string_bytes words.now)) }
{
    match words {
        [word, rest @ ..] if is_file_name(word.as_str()) => Ok((word.as_str(), rest)),
        _ => Err(CheckUsage { word: number }),
    }
}

fn is_file_name(word: &str) -> bool
    ensures { result ≡ is_file_word word.now }
{
    match word.as_bytes() {
        [] => false,
        [first, ..] => *first != b'-',
    }
}

// The number within these bounds whose decimal text the word is.
fn number_in(word: &str, least: u64, most: u64) -> Option<u64>
    ensures named { result ≡ number_named least most word.now }
    ensures within { IfSome result (IsBetween least most) }
{
    match spelled(word) {
        Some(number) if least <= number && number <= most => Some(number),
        _ => None,
    }
}

// The number whose decimal text the word is.
fn spelled(word: &str) -> Option<u64>
    ensures some { IfSome result (λ n. word.now ≡ decimal n) }
    ensures fits { IfSome result (λ n. n < 2 ^ 64) }
    ensures none { IfNone result ((n : ℕ) → n < 2 ^ 64 → word.now ≡ decimal n → ⊥) }
{
    match word.parse::<u64>() {
        Ok(number) if Buffer::new().format(number) == word => Some(number),
        _ => None,
    }
}

// The file that is named, where a word is given and names one.
fn given_file(word: Option<&str>) -> Option<&str>
    ensures { name_bytes result ≡ option_and_then file_named (name_bytes word.entry) }
{
    match word {
        Some(word) if is_file_name(word) => Some(word),
        _ => None,
    }
}

// The number within these bounds, where a word is given and is one's decimal text.
fn given_number(word: Option<&str>, least: u64, most: u64) -> Option<u64>
    ensures named { result ≡ option_and_then (number_named least most) (name_bytes word.entry) }
    ensures within { IfSome result (IsBetween least most) }
{
    match word {
        Some(word) => number_in(word, least, most),
        None => None,
    }
}
