ghost use Rattle.std.specs.Prelude.{◌≡◌, ◌+◌, ◌*◌, ◌^◌, ◌<◌, length, IfOk, OnOk};
ghost use Rattle.mill_read.specs.Reading.{GivesAt, list_at};
ghost use Rattle.mill_read.specs.PlanFile.{kind_at, place_at, plan_file};
ghost use Rattle.mill_read.specs.Gives.{Gives, GivesAll};

use crate::fault::{TextError, TextFault, Why};
use crate::words::Words;
use mill_model::{Kind, Mill, Plan};
use std::alloc::Global;

// A plan has at most so many slabs.
const MOST_PLAN_SLABS: u16 = 1000;

// Reads a slab: `new` and its size, or `old` and its number in the yard, which is counted from 1 in a file.
#[tactic(auto, unfolding(crate::specs::PlanFile::kind_at))]
fn kind(words: &mut Words<'_>) -> Result<Kind, TextFault>
    requires { words.old.number < 2 ^ 30 }
    ensures given { GivesAt result words.new (kind_at words.old) }
    ensures number { OnOk result (words.new.number ≡ words.old.number + 2) }
{
    if words.is_new()? {
        Ok(Kind::New(words.number(Why::Range, 1, u16::MAX)?))
    } else {
        Ok(Kind::Old(words.number(Why::Range, 1, u16::MAX)? - 1))
    }
}

// Reads so many slabs.
fn kinds(alloc: Global, words: &mut Words<'_>, count: u16) -> Result<Vec<Kind>, TextError>
    requires { words.old.number + 2 * count < 2 ^ 30 }
    ensures given { Gives (λ v. v.items) result words.new (list_at kind_at count words.old) }
    ensures number { OnOk result (words.new.number ≡ words.old.number + 2 * count) }
{
    let mut list = Vec::with_capacity(alloc, usize::from(count))?;
    for _ in 0..count {
        list.push_reserved(kind(words)?);
    }
    Ok(list)
}

// Reads the slab of an order, which is counted from 1 in a file.
#[tactic(auto, unfolding(crate::specs::PlanFile::place_at))]
fn place(words: &mut Words<'_>) -> Result<u16, TextFault>
    requires { words.old.number < 2 ^ 31 }
    ensures given { GivesAt result words.new (place_at words.old) }
    ensures number { OnOk result (words.new.number ≡ words.old.number + 1) }
{
    Ok(words.number(Why::Range, 1, u16::MAX)? - 1)
}

// Reads the slabs of so many orders.
fn places(alloc: Global, words: &mut Words<'_>, count: usize) -> Result<Vec<u16>, TextError>
    requires { words.old.number + count < 2 ^ 31 }
    ensures given { Gives (λ v. v.items) result words.new (list_at place_at count words.old) }
    ensures count { IfOk result (λ v. length v.items ≡ count) }
    ensures number { OnOk result (words.new.number ≡ words.old.number + count) }
{
    let mut list = Vec::with_capacity(alloc, count)?;
    for _ in 0..count {
        list.push_reserved(place(words)?);
    }
    Ok(list)
}

/// Reads a plan file for this mill: the number of slabs (0 to 1,000), for each slab `new` and its size or `old` and the
/// number of a surplus slab, and for each order the number of its slab (each number 1 to 65,535).
///
/// A file counts surplus slabs and slabs from 1, and a plan from 0. Only the mill's number of orders matters here: whether
/// the plan fits the mill is told by judging.
///
/// A file that isn't so is refused with its first word that can't stand: `Missing` where it ends too early, `NotNumber`,
/// `Range`, `Kind` where a slab begins with neither `new` nor `old`, and `Extra` for a word after the last.
#[tactic(auto, unfolding(crate::specs::PlanFile::plan_at))]
pub fn read_plan(alloc: Global, mill: &Mill, bytes: &[u8]) -> Result<Plan, TextError>
    ensures exact { GivesAll result (plan_file (length mill.now.orders) bytes.now) }
    ensures places { IfOk result (λ plan. length plan.place ≡ length mill.now.orders) }
{
    let mut words = Words::new(bytes);
    let slab_count = words.number(Why::Range, 0, MOST_PLAN_SLABS)?;
    let kinds = kinds(alloc, &mut words, slab_count)?;
    let places = places(alloc, &mut words, mill.orders().len())?;
    words.end()?;
    Ok(Plan::new(kinds, places))
}
