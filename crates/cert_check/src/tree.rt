//! Lines of a tree against the path: the code that the line machine calls there.
ghost use Rattle.std.specs.Prelude.{◌≡◌, ◌≢◌, ◌≤◌, Ok, Err, IfErr, IfOk, OnOk, IfSome, IfNone, IsSome, length};
ghost use Rattle.cert_view.specs.Text.{IsLine};
ghost use Rattle.mill_model.specs.Mill.{most_orders, most_slabs};
ghost use Rattle.mill_model.specs.Prices.{prices_of};
ghost use Rattle.price_check.specs.Exceeding.{IsExceeding};
ghost use Rattle.cert_check.specs.Lines.{can_begin, is_ask, pair_rules, put_rules, put_yes, IsAsked, IsNotAsked};
ghost use Rattle.cert_rules.specs.Rules.{AllKept, FirstBroken};
ghost use Rattle.cert_rules.specs.Questions.{NamesPair, NamesPut, pair_of, put_of};
ghost use Rattle.cert_rules.specs.Leaves.{leaf_rules};
ghost use Rattle.cert_check.specs.Whys.{leaf_why};

use cert_rules::Why;
use cert_view::{Line, Nums};
use mill_model::{Ask, Limits, Mill, Version};
use price_check::{Bad, Path};

/// Whether a line can begin a tree.
pub(crate) fn can_begin(version: Version, line: &Line<'_>) -> bool
    ensures { result ≡ can_begin version line.now }
{
    match version {
        Version::One => matches!(line, Line::Leaf(_) | Line::Pair(_) | Line::Put(_)),
        Version::Two => matches!(
            line,
            Line::Leaf(_) | Line::Bare | Line::Plain | Line::Spread(_)
        ),
    }
}

/// Whether a line is a question.
pub(crate) fn is_ask(line: &Line<'_>) -> bool
    ensures { result ≡ is_ask line.now }
{
    matches!(line, Line::Pair(_) | Line::Put(_))
}

/// Takes a question's line in a tree: the path goes down to its answer yes, or the line breaks a rule.
pub(crate) fn ask_line(mill: &Mill, path: &mut Path, line: &Line<'_>) -> Result<(), Why>
    requires line { IsLine line.now }
    requires orders { path.old.orders ≡ length mill.now.orders }
    requires slabs { path.old.slabs ≡ length mill.now.yard }
    ensures good { OnOk result (IsAsked mill.now path.old.decisions path.new.decisions line.now) }
    ensures bad { IfErr result (IsNotAsked mill.now path.old.decisions line.now) }
    ensures orders { path.new.orders ≡ path.old.orders }
    ensures slabs { path.new.slabs ≡ path.old.slabs }
    ensures other { result ≢ Err Why.Column }
{
    match line {
        Line::Pair(numbers) => pair_line(mill, path, numbers),
        Line::Put(numbers) => put_line(mill, path, numbers),
        _ => Err(Why::Expect),
    }
}

// The question that the numbers of a `pair` line name, if they name one.
fn named_pair(orders: usize, numbers: &Nums<'_>) -> Option<Ask>
    requires few { orders ≤ most_orders }
    requires count { length numbers.now ≡ 2 }
    ensures named { IfSome result (λ ask.
        NamesPair orders numbers.now × (ask ≡ pair_of numbers.now)) }
    ensures unnamed { IfNone result (NamesPair orders numbers.now → ⊥) }
{
    let i = numbers.get(0);
    let j = numbers.get(1);
    if 1 <= i && i < j && j <= orders as i64 {
        Some(Ask::Pair((i - 1) as u16, (j - 1) as u16))
    } else {
        None
    }
}

/// Takes a `pair` line in a tree: the path goes down to its answer yes, or the line breaks a rule.
pub(crate) fn pair_line(mill: &Mill, path: &mut Path, numbers: &Nums<'_>) -> Result<(), Why>
    requires count { length numbers.now ≡ 2 }
    requires orders { path.old.orders ≡ length mill.now.orders }
    requires slabs { path.old.slabs ≡ length mill.now.yard }
    ensures good { OnOk result (AllKept (pair_rules mill.now path.old.decisions numbers.now)
        × (path.new ≡ put_yes path.old (pair_of numbers.now))) }
    ensures bad { IfErr result (FirstBroken (pair_rules mill.now path.old.decisions numbers.now)) }
    ensures orders { path.new.orders ≡ path.old.orders }
    ensures slabs { path.new.slabs ≡ path.old.slabs }
    ensures other { result ≢ Err Why.Column }
{
    let Some(ask) = named_pair(mill.orders().len(), numbers) else {
        return Err(Why::Ask);
    };
    if !path.push(ask) {
        return Err(Why::Repeat);
    }
    Ok(())
}

// The question that the numbers of a `put` line name, if they name one.
fn named_put(orders: usize, slabs: usize, numbers: &Nums<'_>) -> Option<Ask>
    requires few { orders ≤ most_orders }
    requires fewer { slabs ≤ most_slabs }
    requires count { length numbers.now ≡ 2 }
    ensures named { IfSome result (λ ask.
        NamesPut orders slabs numbers.now × (ask ≡ put_of numbers.now)) }
    ensures unnamed { IfNone result (NamesPut orders slabs numbers.now → ⊥) }
{
    let o = numbers.get(0);
    let s = numbers.get(1);
    if 1 <= o && o <= orders as i64 && 1 <= s && s <= slabs as i64 {
        Some(Ask::Put((o - 1) as u16, (s - 1) as u16))
    } else {
        None
    }
}

/// Takes a `put` line in a tree: the path goes down to its answer yes, or the line breaks a rule.
pub(crate) fn put_line(mill: &Mill, path: &mut Path, numbers: &Nums<'_>) -> Result<(), Why>
    requires count { length numbers.now ≡ 2 }
    requires orders { path.old.orders ≡ length mill.now.orders }
    requires slabs { path.old.slabs ≡ length mill.now.yard }
    ensures good { OnOk result (AllKept (put_rules mill.now path.old.decisions numbers.now)
        × (path.new ≡ put_yes path.old (put_of numbers.now))) }
    ensures bad { IfErr result (FirstBroken (put_rules mill.now path.old.decisions numbers.now)) }
    ensures orders { path.new.orders ≡ path.old.orders }
    ensures slabs { path.new.slabs ≡ path.old.slabs }
    ensures other { result ≢ Err Why.Column }
{
    let Some(ask) = named_put(mill.orders().len(), mill.yard().len(), numbers) else {
        return Err(Why::Ask);
    };
    if !path.push(ask) {
        return Err(Why::Repeat);
    }
    Ok(())
}

/// Takes a `leaf` line in a tree: its prices refute the limits under the path, or it breaks a rule.
pub(crate) fn leaf_line(
    mill: &Mill,
    limits: Limits,
    path: &mut Path,
    numbers: &Nums<'_>,
) -> Result<(), Why>
    requires orders { path.old.orders ≡ length mill.now.orders }
    requires slabs { path.old.slabs ≡ length mill.now.yard }
    ensures good { OnOk result (AllKept
        (leaf_rules mill.now limits path.old.decisions numbers.now)) }
    ensures bad { IfErr result (FirstBroken
        (leaf_rules mill.now limits path.old.decisions numbers.now)) }
    ensures path { path.new ≡ record path.old { bad = path.new.bad } }
    ensures found { result ≡ Err Why.Column → IsSome path.new.bad }
    ensures exceeds { IfSome path.new.bad (IsExceeding mill.now path.old.decisions
        (prices_of (length mill.now.orders) numbers.now)) }
{
    match path.leaf_ok(mill, limits, numbers) {
        Ok(()) => Ok(()),
        Err(bad) => Err(leaf_why(bad)),
    }
}

// The why of a broken rule of a leaf.
fn leaf_why(bad: Bad) -> Why
    ensures { result ≡ leaf_why bad }
{
    match bad {
        Bad::Count => Why::Count,
        Bad::Sign => Why::Sign,
        Bad::Missing => Why::Missing,
        Bad::Sum => Why::Sum,
        Bad::Column => Why::Column,
    }
}
