ghost use Rattle.std.specs.Prelude.{◌≡◌, ◌+◌, ◌^◌, ◌<◌, length, All, IfOk, OnOk};
ghost use Rattle.mill_model.specs.Mill.{IsBetween};
ghost use Rattle.mill_read.specs.Reading.{number_at, list_at};
ghost use Rattle.mill_read.specs.Gives.{Gives};

use crate::fault::{TextError, Why};
use crate::words::Words;
use std::alloc::Global;

/// Reads so many numbers in a range.
pub fn numbers(
    alloc: Global,
    words: &mut Words<'_>,
    count: u16,
    low: u16,
    high: u16,
) -> Result<Vec<u16>, TextError>
    requires { words.old.number + count < 2 ^ 31 }
    ensures given { Gives (λ v. v.items) result words.new (list_at (number_at Why.Range low high) count words.old) }
    ensures range { IfOk result (λ v. All (IsBetween low high) v.items) }
    ensures count { IfOk result (λ v. length v.items ≡ count) }
    ensures number { OnOk result (words.new.number ≡ words.old.number + count) }
{
    let mut list = Vec::with_capacity(alloc, usize::from(count))?;
    for _ in 0..count {
        list.push_reserved(words.number(Why::Range, low, high)?);
    }
    Ok(list)
}
