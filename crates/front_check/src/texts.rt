// The texts that a check says.
ghost use Rattle.std.specs.Prelude.{◌≡◌, ◌++◌, IfOk, OnOk};
ghost use Rattle.std.specs.String.{string_bytes};
ghost use Rattle.run_words.specs.Texts.{usage_text as usage_line, why_word as word_of_why, rule_word, bad_line_text as bad_line};
ghost use Rattle.front_check.specs.Texts.{source_word, fault_text as fault_line, long_text as long_line, point_text, front_text as front_lines};
ghost use Rattle.cert_check.specs.Whys.{why_of};

use crate::words::CheckUsage;
use cert_check::LineWhy;
use mill_model::Sums;
use mill_read::{TextFault, Why};
use std::alloc::{AllocError, Global};

/// A file that a run reads in one piece: the order file or the yard file.
#[derive(Clone, Copy)]
pub enum Source {
    Orders,
    Yard,
}

impl Source {
    fn word(self) -> &'static str
        ensures { result.now ≡ source_word self }
    {
        match self {
            Source::Orders => "orders",
            Source::Yard => "yard",
        }
    }
}

fn why_word(why: Why) -> &'static str
    ensures { result.now ≡ word_of_why why }
{
    match why {
        Why::Missing => "missing",
        Why::NotNumber => "number",
        Why::Range => "range",
        Why::Colour => "colour",
        Why::Kind => "kind",
        Why::Extra => "extra",
    }
}

/// The first word of the command line that can't stand.
pub fn usage_text(alloc: Global, usage: CheckUsage) -> Result<String, AllocError>
    ensures { IfOk result (λ text. string_bytes text ≡ usage_line usage.word) }
{
    let word = usage.word;
    format!(in alloc; "usage word {word}\n")
}

/// The first fault of a file.
pub fn fault_text(alloc: Global, source: Source, fault: TextFault) -> Result<String, AllocError>
    ensures { IfOk result (λ text. string_bytes text ≡ fault_line source fault) }
{
    let name = source.word();
    let word = fault.word;
    let why = why_word(fault.why);
    format!(in alloc; "input {name} word {word} {why}\n")
}

/// A file that is too long.
pub fn long_text(alloc: Global, source: Source) -> Result<String, AllocError>
    ensures { IfOk result (λ text. string_bytes text ≡ long_line source) }
{
    let name = source.word();
    format!(in alloc; "input {name} long\n")
}

/// The points of a certificate, and a last word.
pub fn front_text(alloc: Global, points: &[Sums], last: &str) -> Result<String, AllocError>
    ensures { IfOk result (λ text. string_bytes text ≡ front_lines points.now last.now) }
{
    let count = points.len();
    let mut text = format!(in alloc; "front {count}\n")?;
    'points: for sums in points {
        push_point(alloc, &mut text, *sums)?;
    }
    text.push_str(last)?;
    text.push_str("\n")?;
    Ok(text)
}

// Puts the line of a point at the end of a text.
fn push_point(alloc: Global, text: &mut String, sums: Sums) -> Result<(), AllocError>
    ensures { OnOk result (string_bytes text.new ≡ string_bytes text.old ++ point_text sums) }
{
    let loss = sums.loss;
    let count = sums.count;
    let line = format!(in alloc; "point {loss} {count}\n")?;
    text.push_str(line.as_str())
}

/// The first bad line of a certificate, and the rule that it breaks.
pub fn bad_line_text(alloc: Global, number: u64, why: &LineWhy) -> Result<String, AllocError>
    ensures { IfOk result (λ text. string_bytes text ≡ bad_line number (why_of why.now)) }
{
    let rule = line_why_word(why);
    format!(in alloc; "certificate line {number} {rule}\n")
}

fn line_why_word(why: &LineWhy) -> &'static str
    ensures { result.now ≡ rule_word (why_of why.now) }
{
    match why {
        LineWhy::Extra => "extra",
        LineWhy::End => "end",
        LineWhy::Spelling => "spelling",
        LineWhy::Range => "range",
        LineWhy::Expect => "expect",
        LineWhy::Order => "order",
        LineWhy::Size => "size",
        LineWhy::Place => "place",
        LineWhy::Load => "load",
        LineWhy::Colours => "colours",
        LineWhy::Yard => "yard",
        LineWhy::Twice => "twice",
        LineWhy::Barred => "barred",
        LineWhy::Unplaced => "unplaced",
        LineWhy::Sums => "sums",
        LineWhy::Ask => "ask",
        LineWhy::Repeat => "repeat",
        LineWhy::Count => "count",
        LineWhy::Sign => "sign",
        LineWhy::Missing => "missing",
        LineWhy::Sum => "sum",
        LineWhy::Column { kind: _, orders: _ } => "column",
        LineWhy::Agree => "agree",
        LineWhy::Cover => "cover",
        LineWhy::Loss => "loss",
        LineWhy::New => "new",
    }
}
