// The words of the command line, and what they ask for.
ghost use Rattle.std.specs.Prelude.{◌≡◌, ℕ, ◌+◌, ◌^◌, ◌<◌, ◌≤◌, map, decimal, IfOk, IfSome, IfNone};
ghost use Rattle.std.specs.Option.{option_and_then};
ghost use Rattle.std.specs.String.{string_bytes};
ghost use Rattle.mill_model.specs.Mill.{IsBetween};
ghost use Rattle.run_words.specs.Words.{is_file_word, file_named, number_named, word_at, name_bytes};
ghost use Rattle.slab_front.specs.Words.{end_at, no_options, with_option as with_one_more, with_search_option as with_one_of_search, options_from, solve_of, resume_of, judge_of, make_of, job_of};
ghost use Rattle.slab_front.specs.Jobs.{command_of, searches_for, options_at as number_of_options, options_of, round_words as words_of_rounds, word_after, IsParsed, IsInRanges, AreInRanges};

use itoa::Buffer;
use mill_model::{MOST_COLOUR_LIMIT, MOST_ORDERS};
use thiserror::Error;

/// So many nodes may one question's tree have where nothing else is said.
pub const DEFAULT_NODES: u64 = 1000000;

const DEFAULT_COLOURS: u16 = 2;

const DEFAULT_ROUNDS: u32 = 0;

const DEFAULT_SEED: u32 = 0;

const MOST_NODES: u64 = 1000000000000000;

const MOST_ROUNDS: u64 = 10000;

/// What the words ask for, with the names of the files.
#[derive(Clone, Copy, Debug, PartialEq, Eq)]
pub enum Job<'a> {
    /// The Pareto front of a mill: of an order file, with the yard of a yard file where one is named, and a colour limit of 1 to
    /// 3. A certificate of it is stored in the file `cert`. One question's tree may have so many nodes, 1 to 10^15. After each
    /// first-fit plan come so many rounds by large neighbourhoods, at most 10,000, with the numbers of a seed.
    Solve {
        orders: &'a str,
        cert: &'a str,
        yard: Option<&'a str>,
        nodes: u64,
        colours: u16,
        rounds: u32,
        seed: u32,
    },
    /// The same of such a mill, from the points of a cut on, with their trees.
    Resume {
        orders: &'a str,
        cut: &'a str,
        cert: &'a str,
        yard: Option<&'a str>,
        nodes: u64,
        colours: u16,
        rounds: u32,
        seed: u32,
    },
    /// Whether the plan of a plan file is legal for such a mill.
    Judge {
        orders: &'a str,
        plan: &'a str,
        yard: Option<&'a str>,
        colours: u16,
    },
    /// The Pareto front of the mill of so many orders, at most 250, that a number makes.
    Make {
        orders: u16,
        seed: u32,
    },
}

/// The number of the first word that can't stand, from 1, or the number of words plus 1 where a word is missing.
#[derive(Clone, Copy, Debug, PartialEq, Eq, Error)]
#[error("word {word} of the command line can't stand, or is missing")]
pub struct UsageAt {
    pub word: u32,
}

// A command that has options.
#[derive(Clone, Copy)]
enum Optioned {
    Solving,
    Resuming,
    Judging,
}

// The options that were read so far.
#[derive(Clone, Copy)]
struct Options<'a> {
    yard: Option<&'a str>,
    nodes: Option<u64>,
    colours: Option<u16>,
    rounds: Option<u32>,
    seed: Option<u32>,
}

/// What the words after the program's name ask for: `solve ORDERS CERT`, `resume ORDERS CUT CERT`, `judge ORDERS PLAN` or
/// `make N SEED`. After the file words stand the options `--yard FILE` and `--colours P`, for a search also `--nodes N`,
/// `--rounds R` and `--seed Z`, in any order, each at most once. The name of a file isn't empty and doesn't begin with `-`; a
/// number has no leading zero. It takes no memory.
pub fn read_words(words: &[String]) -> Result<Job<'_>, UsageAt>
    ensures job { IsParsed command_of result (job_of (map string_bytes words.now)) }
    ensures ranges { IfOk result IsInRanges }
{
    match words {
        [command, rest @ ..] if command.as_str() == "solve" => solve(rest),
        [command, rest @ ..] if command.as_str() == "resume" => resume(rest),
        [command, rest @ ..] if command.as_str() == "judge" => judge(rest),
        [command, rest @ ..] if command.as_str() == "make" => make(rest),
        _ => Err(UsageAt { word: 1 }),
    }
}

// The words after `solve`.
fn solve(words: &[String]) -> Result<Job<'_>, UsageAt>
    ensures job { IsParsed command_of result (solve_of (map string_bytes words.now)) }
    ensures ranges { IfOk result IsInRanges }
{
    let (orders, rest) = file_word(words, 2)?;
    let (cert, rest) = file_word(rest, 3)?;
    let options = read_options(rest, Optioned::Solving)?;
    Ok(Job::Solve {
        orders,
        cert,
        yard: options.yard,
        nodes: options.nodes.unwrap_or(DEFAULT_NODES),
        colours: options.colours.unwrap_or(DEFAULT_COLOURS),
        rounds: options.rounds.unwrap_or(DEFAULT_ROUNDS),
        seed: options.seed.unwrap_or(DEFAULT_SEED),
    })
}

// The words after `resume`.
fn resume(words: &[String]) -> Result<Job<'_>, UsageAt>
    ensures job { IsParsed command_of result (resume_of (map string_bytes words.now)) }
    ensures ranges { IfOk result IsInRanges }
{
    let (orders, rest) = file_word(words, 2)?;
    let (cut, rest) = file_word(rest, 3)?;
    let (cert, rest) = file_word(rest, 4)?;
    let options = read_options(rest, Optioned::Resuming)?;
    Ok(Job::Resume {
        orders,
        cut,
        cert,
        yard: options.yard,
        nodes: options.nodes.unwrap_or(DEFAULT_NODES),
        colours: options.colours.unwrap_or(DEFAULT_COLOURS),
        rounds: options.rounds.unwrap_or(DEFAULT_ROUNDS),
        seed: options.seed.unwrap_or(DEFAULT_SEED),
    })
}

// The words after `judge`.
fn judge(words: &[String]) -> Result<Job<'_>, UsageAt>
    ensures job { IsParsed command_of result (judge_of (map string_bytes words.now)) }
    ensures ranges { IfOk result IsInRanges }
{
    let (orders, rest) = file_word(words, 2)?;
    let (plan, rest) = file_word(rest, 3)?;
    let options = read_options(rest, Optioned::Judging)?;
    Ok(Job::Judge {
        orders,
        plan,
        yard: options.yard,
        colours: options.colours.unwrap_or(DEFAULT_COLOURS),
    })
}

// The words after `make`.
fn make(words: &[String]) -> Result<Job<'_>, UsageAt>
    ensures job { IsParsed command_of result (make_of (map string_bytes words.now)) }
    ensures ranges { IfOk result IsInRanges }
{
    let (orders, rest) = number_word(words, 2, 0, u64::from(MOST_ORDERS))?;
    let (seed, rest) = number_word(rest, 3, 0, u64::from(u32::MAX))?;
    no_more(rest, 4)?;
    Ok(Job::Make {
        orders: orders as u16,
        seed: seed as u32,
    })
}

// The words that are left are options of this command.
fn read_options(words: &[String], command: Optioned) -> Result<Options<'_>, UsageAt>
    ensures options { IsParsed options_of result
        (options_from (searches_for command) (number_of_options command) no_options
        (map string_bytes words.now)) }
    ensures ranges { IfOk result AreInRanges }
{
    let mut options = Options {
        yard: None,
        nodes: None,
        colours: None,
        rounds: None,
        seed: None,
    };
    let mut rest = words;
    'options: loop {
        match rest {
            [] => return Ok(options),
            [name] => return options.with_option(command, name.as_str(), None),
            [name, value, after @ ..] => {
                options = options.with_option(command, name.as_str(), Some(value.as_str()))?;
                rest = after;
            }
        }
    }
}

impl Optioned {
    // The number of the first word after its file words.
    fn options_at(self) -> u32
        ensures value { result ≡ number_of_options self }
        ensures few { result ≤ 5 }
    {
        match self {
            Optioned::Solving | Optioned::Judging => 4,
            Optioned::Resuming => 5,
        }
    }

    // Whether it has the options of a search.
    fn searches(self) -> bool
        ensures { result ≡ searches_for self }
    {
        match self {
            Optioned::Solving | Optioned::Resuming => true,
            Optioned::Judging => false,
        }
    }
}

impl<'a> Options<'a> {
    // The number of the word after these options of a command.
    fn next_word(&self, command: Optioned) -> u32
        ensures value { result ≡ word_after (number_of_options command) (options_of self.now) }
        ensures few { result ≤ 15 }
    {
        let yard = if self.yard.is_some() { 2 } else { 0 };
        let nodes = if self.nodes.is_some() { 2 } else { 0 };
        let colours = if self.colours.is_some() { 2 } else { 0 };
        command.options_at() + yard + nodes + colours + self.round_words()
    }

    // How many words its options of the rounds take.
    fn round_words(&self) -> u32
        ensures value { result ≡ words_of_rounds (options_of self.now) }
        ensures few { result ≤ 4 }
    {
        let rounds = if self.rounds.is_some() { 2 } else { 0 };
        let seed = if self.seed.is_some() { 2 } else { 0 };
        rounds + seed
    }

    // These options of a command with one more: its name, and the word after that, where there is one.
    fn with_option(
        self,
        command: Optioned,
        name: &str,
        value: Option<&'a str>,
    ) -> Result<Options<'a>, UsageAt>
        requires ranges { AreInRanges self }
        ensures options { IsParsed options_of result
            (with_one_more (searches_for command)
            (word_after (number_of_options command) (options_of self.entry)) (options_of self.entry)
            name.now (name_bytes value.entry)) }
        ensures ranges { IfOk result AreInRanges }
        ensures next { IfOk result (λ options. (first : ℕ) → word_after first (options_of options) ≡
            word_after first (options_of self.entry) + 2) }
    {
        let number = self.next_word(command);
        let wrong = UsageAt { word: number + 1 };
        if name == "--yard" && self.yard.is_none() {
            let yard = given_file(value).ok_or(wrong)?;
            return Ok(Options {
                yard: Some(yard),
                ..self
            });
        }
        if name == "--colours" && self.colours.is_none() {
            let colours = given_number(value, 1, u64::from(MOST_COLOUR_LIMIT)).ok_or(wrong)?;
            return Ok(Options {
                colours: Some(colours as u16),
                ..self
            });
        }
        if command.searches() {
            return self.with_search_option(number, name, value);
        }
        Err(UsageAt { word: number })
    }

    // These options with one more that only a search has: its name, which is the word of this number, and the word after that,
    // where there is one.
    fn with_search_option(
        self,
        number: u32,
        name: &str,
        value: Option<&'a str>,
    ) -> Result<Options<'a>, UsageAt>
        requires ranges { AreInRanges self }
        requires few { number ≤ 15 }
        ensures options { IsParsed options_of result
            (with_one_of_search number (options_of self.entry) name.now (name_bytes value.entry)) }
        ensures ranges { IfOk result AreInRanges }
        ensures next { IfOk result (λ options. (first : ℕ) → word_after first (options_of options) ≡
            word_after first (options_of self.entry) + 2) }
    {
        let wrong = UsageAt { word: number + 1 };
        if name == "--nodes" && self.nodes.is_none() {
            let nodes = given_number(value, 1, MOST_NODES).ok_or(wrong)?;
            return Ok(Options {
                nodes: Some(nodes),
                ..self
            });
        }
        if name == "--rounds" && self.rounds.is_none() {
            let rounds = given_number(value, 0, MOST_ROUNDS).ok_or(wrong)?;
            return Ok(Options {
                rounds: Some(rounds as u32),
                ..self
            });
        }
        if name == "--seed" && self.seed.is_none() {
            let seed = given_number(value, 0, u64::from(u32::MAX)).ok_or(wrong)?;
            return Ok(Options {
                seed: Some(seed as u32),
                ..self
            });
        }
        Err(UsageAt { word: number })
    }
}

// The first of the words, which has this number and is a file word, and the words after it.
fn file_word(words: &[String], number: u32) -> Result<(&str, &[String]), UsageAt>
    ensures { IsParsed (λ r. (r.0.now, map string_bytes r.1.now)) result
        (word_at file_named number (map string_bytes words.now)) }
{
    match words {
        [word, rest @ ..] if is_file_name(word.as_str()) => Ok((word.as_str(), rest)),
        _ => Err(UsageAt { word: number }),
    }
}

// The first of the words, which has this number and is a number within these bounds, and the words after it.
fn number_word(
    words: &[String],
    number: u32,
    least: u64,
    most: u64,
) -> Result<(u64, &[String]), UsageAt>
    ensures parsed { IsParsed (λ r. (r.0, map string_bytes r.1.now)) result
        (word_at (number_named least most) number (map string_bytes words.now)) }
    ensures within { IfOk result (λ r. IsBetween least most r.0) }
{
    let [word, rest @ ..] = words else {
        return Err(UsageAt { word: number });
    };
    match number_in(word.as_str(), least, most) {
        Some(value) => Ok((value, rest)),
        None => Err(UsageAt { word: number }),
    }
}

// No word is left. The first would have this number.
fn no_more(words: &[String], number: u32) -> Result<(), UsageAt>
    ensures { IsParsed (λ r. r) result (end_at number tt (map string_bytes words.now)) }
{
    match words {
        [] => Ok(()),
        _ => Err(UsageAt { word: number }),
    }
}

fn is_file_name(word: &str) -> bool
    ensures { result ≡ is_file_word word.now }
{
    match word.as_bytes() {
        [] => false,
        [first, ..] => *first != b'-',
    }
}

// The number within these bounds whose decimal text the word is.
fn number_in(word: &str, least: u64, most: u64) -> Option<u64>
    ensures named { result ≡ number_named least most word.now }
    ensures within { IfSome result (IsBetween least most) }
{
    match spelled(word) {
        Some(number) if least <= number && number <= most => Some(number),
        _ => None,
    }
}

// The number whose decimal text the word is.
fn spelled(word: &str) -> Option<u64>
    ensures some { IfSome result (λ n. word.now ≡ decimal n) }
    ensures fits { IfSome result (λ n. n < 2 ^ 64) }
    ensures none { IfNone result ((n : ℕ) → n < 2 ^ 64 → word.now ≡ decimal n → ⊥) }
{
    match word.parse::<u64>() {
        Ok(number) if Buffer::new().format(number) == word => Some(number),
        _ => None,
    }
}

// The file that is named, where a word is given and names one.
fn given_file(word: Option<&str>) -> Option<&str>
    ensures { name_bytes result ≡ option_and_then file_named (name_bytes word.entry) }
{
    match word {
        Some(word) if is_file_name(word) => Some(word),
        _ => None,
    }
}

// The number within these bounds, where a word is given and is one's decimal text.
fn given_number(word: Option<&str>, least: u64, most: u64) -> Option<u64>
    ensures named { result ≡ option_and_then (number_named least most) (name_bytes word.entry) }
    ensures within { IfSome result (IsBetween least most) }
{
    match word {
        Some(word) => number_in(word, least, most),
        None => None,
    }
}
