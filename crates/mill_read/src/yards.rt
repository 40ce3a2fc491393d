ghost use Rattle.std.specs.Prelude.{◌≡◌, ◌+◌, ◌*◌, ◌^◌, ◌<◌, ◌≤◌, [], length, All, IfOk, OnOk};
ghost use Rattle.mill_model.specs.Mill.{IsYard, AreBarsAmong, most_bars};
ghost use Rattle.mill_read.specs.Reading.{GivesAt, list_at, unless_end};
ghost use Rattle.mill_read.specs.YardFile.{bar_at, bars_at, yard_file};
ghost use Rattle.mill_read.specs.Gives.{Gives, GivesAll};

use crate::fault::{TextError, TextFault, Why};
use crate::lists::numbers;
use crate::words::Words;
use mill_model::{MOST_BARS, MOST_SLABS, MOST_WEIGHT, Mill, Yard};
use std::alloc::Global;

// Reads an order and a surplus slab, which are counted from 1 in a file.
#[tactic(auto, unfolding(crate::specs::YardFile::bar_at))]
fn bar(words: &mut Words<'_>, orders: u16, slabs: u16) -> Result<(u16, u16), TextFault>
    requires { words.old.number < 2 ^ 30 }
    ensures given { GivesAt result words.new (bar_at orders slabs words.old) }
    ensures range { IfOk result (λ bar. (bar.0 < orders) × (bar.1 < slabs)) }
    ensures number { OnOk result (words.new.number ≡ words.old.number + 2) }
{
    let order = words.number(Why::Range, 1, orders)?;
    let slab = words.number(Why::Range, 1, slabs)?;
    Ok((order - 1, slab - 1))
}

// Reads so many bars.
fn bar_list(
    alloc: Global,
    words: &mut Words<'_>,
    count: u16,
    orders: u16,
    slabs: u16,
) -> Result<Vec<(u16, u16)>, TextError>
    requires { words.old.number + 2 * count < 2 ^ 30 }
    ensures given { Gives (λ v. v.items) result words.new (list_at (bar_at orders slabs) count words.old) }
    ensures range { IfOk result (λ v. All (λ bar. (bar.0 < orders) × (bar.1 < slabs)) v.items) }
    ensures count { IfOk result (λ v. length v.items ≡ count) }
    ensures number { OnOk result (words.new.number ≡ words.old.number + 2 * count) }
{
    let mut list = Vec::with_capacity(alloc, usize::from(count))?;
    for _ in 0..count {
        list.push_reserved(bar(words, orders, slabs)?);
    }
    Ok(list)
}

// Reads the number of bars and the bars, where the text goes on.
#[tactic(auto, unfolding(crate::specs::YardFile::bars_at))]
fn bars(
    alloc: Global,
    words: &mut Words<'_>,
    orders: u16,
    slabs: u16,
) -> Result<Vec<(u16, u16)>, TextError>
    requires { words.old.number < 2 ^ 20 }
    ensures given { Gives (λ v. v.items) result words.new (unless_end [] (bars_at orders slabs) words.old.number words.old.words) }
    ensures range { IfOk result (λ v. All (λ bar. (bar.0 < orders) × (bar.1 < slabs)) v.items) }
    ensures count { IfOk result (λ v. length v.items ≤ most_bars) }
    ensures number { OnOk result (words.new.number < 2 ^ 30) }
{
    if words.is_at_end() {
        return Ok(Vec::new(alloc));
    }
    let count = words.number(Why::Range, 0, MOST_BARS)?;
    bar_list(alloc, words, count, orders, slabs)
}

/// Reads a yard file for this mill: the number of surplus slabs (0 to 40), and their sizes (each 1 to 10,000). There the file
/// ends, or it goes on with the number of bars (0 to 10,000), and for each bar an order of the mill and a surplus slab on
/// which it mustn't lie.
///
/// A file counts orders and surplus slabs from 1, and a yard from 0. Only the mill's number of orders matters here.
///
/// A file that isn't so is refused with its first word that can't stand: `Missing` where it ends too early, `NotNumber`,
/// `Range`, and `Extra` for a word after the last.
#[tactic(auto, unfolding(crate::specs::YardFile::yard_at))]
pub fn read_yard(alloc: Global, mill: &Mill, bytes: &[u8]) -> Result<Yard, TextError>
    ensures exact { GivesAll result (yard_file (length mill.now.orders) bytes.now) }
    ensures limits { IfOk result IsYard }
    ensures bars { IfOk result (λ yard. AreBarsAmong (length mill.now.orders) yard.bars) }
{
    let orders = mill.orders().len() as u16;
    let mut words = Words::new(bytes);
    let count = words.number(Why::Range, 0, MOST_SLABS)?;
    let sizes = numbers(alloc, &mut words, count, 1, MOST_WEIGHT)?;
    let bars = bars(alloc, &mut words, orders, count)?;
    words.end()?;
    Ok(Yard::new(sizes, bars))
}
