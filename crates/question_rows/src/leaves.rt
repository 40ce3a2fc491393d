//! The leaves of a tree, each tested at the end of its path as the checker tests it.

ghost use Rattle.std.specs.Prelude.{◌≡◌, ◌↔◌, IsTrue, length};
ghost use Rattle.mill_model.specs.Decisions.{IsAskAmong};

use cert_view::{CertView, Line, Nums};
use mill_model::{Ask, Limits, Mill, Prices, Step};
use price_check::Path;
use std::alloc::{AllocError, Global};

/// Whether the steps are a whole tree, each of whose leaves refutes the limits under the decisions above it.
pub fn refute(
    alloc: Global,
    mill: &Mill,
    limits: Limits,
    steps: &[Step],
) -> Result<bool, AllocError> {
    let mut path = Path::new(alloc, mill)?;
    let mut left = true;
    'steps: for step in steps {
        if !left {
            return Ok(false);
        }
        match step {
            Step::Leaf(prices) => {
                if !is_refuting(alloc, mill, limits, prices, &mut path)? {
                    return Ok(false);
                }
                left = path.next_branch();
            }
            Step::Pair(i, j) => {
                if !split(mill, &mut path, Ask::Pair(*i, *j)) {
                    return Ok(false);
                }
            }
            Step::Put(o, s) => {
                if !split(mill, &mut path, Ask::Put(*o, *s)) {
                    return Ok(false);
                }
            }
        }
    }
    Ok(!left)
}

// Goes down to the branch for yes. It answers false where the question isn't one of the mill's, or was asked before.
fn split(mill: &Mill, path: &mut Path, ask: Ask) -> bool
    requires orders { path.old.orders ≡ length mill.now.orders }
    requires slabs { path.old.slabs ≡ length mill.now.yard }
    ensures orders { path.new.orders ≡ path.old.orders }
    ensures slabs { path.new.slabs ≡ path.old.slabs }
{
    is_among(mill.orders().len(), mill.yard().len(), ask) && path.push(ask)
}

// Whether there are such orders and such a surplus slab.
fn is_among(orders: usize, slabs: usize, ask: Ask) -> bool
    ensures { IsTrue result ↔ IsAskAmong orders slabs ask }
{
    match ask {
        Ask::Pair(i, j) => i < j && usize::from(j) < orders,
        Ask::Put(o, s) => usize::from(o) < orders && usize::from(s) < slabs,
    }
}

// Whether prices refute the limits under the decisions of the path.
fn is_refuting(
    alloc: Global,
    mill: &Mill,
    limits: Limits,
    prices: &Prices,
    path: &mut Path,
) -> Result<bool, AllocError>
    requires orders { path.old.orders ≡ length mill.now.orders }
    requires slabs { path.old.slabs ≡ length mill.now.yard }
    ensures orders { path.new.orders ≡ path.old.orders }
    ensures slabs { path.new.slabs ≡ path.old.slabs }
{
    let line = line_of(alloc, prices)?;
    match numbers_of(line.as_bytes()) {
        Some(numbers) => Ok(path.leaf_ok(mill, limits, &numbers).is_ok()),
        None => Ok(false),
    }
}

// The numbers of a leaf's line.
fn numbers_of(text: &[u8]) -> Option<Nums<'_>> {
    match CertView::new(text).next() {
        Some(Ok(Line::Leaf(numbers))) => Some(numbers),
        _ => None,
    }
}

// The line of a leaf with these prices.
fn line_of(alloc: Global, prices: &Prices) -> Result<String, AllocError> {
    let lambda = prices.lambda();
    let mu = prices.mu();
    let mut line = format!(in alloc; "leaf {lambda} {mu}")?;
    push_numbers(alloc, &mut line, prices.pi())?;
    push_numbers(alloc, &mut line, prices.sigma())?;
    line.push_str("\n")?;
    Ok(line)
}

fn push_numbers(alloc: Global, line: &mut String, numbers: &[i64]) -> Result<(), AllocError> {
    for number in numbers {
        let text = format!(in alloc; " {number}")?;
        line.push_str(text.as_str())?;
    }
    Ok(())
}
