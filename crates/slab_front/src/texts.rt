// The texts that a run says, beside its report.
ghost use Rattle.std.specs.Prelude.{◌≡◌, ◌≢◌, IfOk};
ghost use Rattle.std.specs.String.{string_bytes};
ghost use Rattle.cert_check.specs.Whys.{why_of};
ghost use Rattle.run_words.specs.Texts.{usage_text as usage_line, why_word as word_of_why, bad_line_text as bad_line, rule_word};
ghost use Rattle.slab_front.specs.Texts.{source_word, fault_text as fault_line, long_text as long_line, legal_text as legal_line, slab_text as slab_line, SaysBroken};

use crate::words::UsageAt;
use cert_check::LineWhy;
use mill_model::{Illegal, Sums};
use mill_read::{TextFault, Why};
use std::alloc::{AllocError, Global};

/// A file that a run reads: the order file, the yard file or the plan file.
#[derive(Clone, Copy)]
pub enum Source {
    Orders,
    Yard,
    Plan,
}

impl Source {
    fn word(self) -> &'static str
        ensures { result.now ≡ source_word self }
    {
        match self {
            Source::Orders => "orders",
            Source::Yard => "yard",
            Source::Plan => "plan",
        }
    }
}

fn why_word(why: Why) -> &'static str
    ensures { result.now ≡ word_of_why why }
{
    match why {
        Why::Missing => "missing",
        Why::NotNumber => "number",
        Why::Range => "range",
        Why::Colour => "colour",
        Why::Kind => "kind",
        Why::Extra => "extra",
    }
}

/// The first word of the command line that can't stand.
pub fn usage_text(alloc: Global, usage: UsageAt) -> Result<String, AllocError>
    ensures { IfOk result (λ text. string_bytes text ≡ usage_line usage.word) }
{
    let word = usage.word;
    format!(in alloc; "usage word {word}\n")
}

/// The first fault of a file.
pub fn fault_text(alloc: Global, source: Source, fault: TextFault) -> Result<String, AllocError>
    ensures { IfOk result (λ text. string_bytes text ≡ fault_line source fault) }
{
    let name = source.word();
    let word = fault.word;
    let why = why_word(fault.why);
    format!(in alloc; "input {name} word {word} {why}\n")
}

/// A file that is too long.
pub fn long_text(alloc: Global, source: Source) -> Result<String, AllocError>
    ensures { IfOk result (λ text. string_bytes text ≡ long_line source) }
{
    let name = source.word();
    format!(in alloc; "input {name} long\n")
}

/// The sums of a legal plan.
pub fn legal_text(alloc: Global, sums: Sums) -> Result<String, AllocError>
    ensures { IfOk result (λ text. string_bytes text ≡ legal_line sums) }
{
    let loss = sums.loss;
    let count = sums.count;
    format!(in alloc; "legal {loss} {count}\n")
}

/// The first rule that a plan with one place for each order breaks.
pub fn illegal_text(alloc: Global, rule: Illegal) -> Result<String, AllocError>
    requires { rule ≢ Illegal.Places }
    ensures { IfOk result (λ text. SaysBroken rule (string_bytes text)) }
{
    match rule {
        Illegal::Places => unreachable!(),
        Illegal::Place(order) => {
            let number = u32::from(order) + 1;
            format!(in alloc; "illegal order {number} place\n")
        }
        Illegal::Empty(slab) => slab_text(alloc, slab, "empty"),
        Illegal::Size(slab) => slab_text(alloc, slab, "size"),
        Illegal::Yard(slab) => slab_text(alloc, slab, "yard"),
        Illegal::Twice(slab) => slab_text(alloc, slab, "twice"),
        Illegal::Load(slab) => slab_text(alloc, slab, "load"),
        Illegal::Colours(slab) => slab_text(alloc, slab, "colours"),
        Illegal::Barred(slab) => slab_text(alloc, slab, "barred"),
    }
}

fn slab_text(alloc: Global, slab: u16, rule: &str) -> Result<String, AllocError>
    ensures { IfOk result (λ text. string_bytes text ≡ slab_line slab rule.now) }
{
    let number = u32::from(slab) + 1;
    format!(in alloc; "illegal slab {number} {rule}\n")
}

/// The first bad line of a certificate, and the rule that it breaks.
pub fn bad_line_text(alloc: Global, number: u64, why: &LineWhy) -> Result<String, AllocError>
    ensures { IfOk result (λ text. string_bytes text ≡ bad_line number (why_of why.now)) }
{
    let rule = line_why_word(why);
    format!(in alloc; "certificate line {number} {rule}\n")
}

fn line_why_word(why: &LineWhy) -> &'static str
    ensures { result.now ≡ rule_word (why_of why.now) }
{
    match why {
        LineWhy::Extra => "extra",
        LineWhy::End => "end",
        LineWhy::Spelling => "spelling",
        LineWhy::Range => "range",
        LineWhy::Expect => "expect",
        LineWhy::Order => "order",
        LineWhy::Size => "size",
        LineWhy::Place => "place",
        LineWhy::Load => "load",
        LineWhy::Colours => "colours",
        LineWhy::Yard => "yard",
        LineWhy::Twice => "twice",
        LineWhy::Barred => "barred",
        LineWhy::Unplaced => "unplaced",
        LineWhy::Sums => "sums",
        LineWhy::Ask => "ask",
        LineWhy::Repeat => "repeat",
        LineWhy::Count => "count",
        LineWhy::Sign => "sign",
        LineWhy::Missing => "missing",
        LineWhy::Sum => "sum",
        LineWhy::Column { kind: _, orders: _ } => "column",
        LineWhy::Agree => "agree",
        LineWhy::Cover => "cover",
        LineWhy::Loss => "loss",
        LineWhy::New => "new",
    }
}
