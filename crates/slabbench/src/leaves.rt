//! The leaves of a certificate, each tested at the end of its path.

ghost use Rattle.std.specs.Prelude.{◌≡◌, length};

use crate::ends::Ends;
use cert_view::{CertView, Line, Nums};
use mill_model::{Ask, Limits, Mill};
use price_check::Path;
use std::alloc::{AllocError, Global};

/// Tests the leaves of a certificate so often, and counts those whose prices refute, and the others.
pub fn test_leaves(
    alloc: Global,
    mill: &Mill,
    certificate: &[u8],
    times: u16,
) -> Result<Ends, AllocError> {
    let mut ends = Ends::new();
    let mut path = Path::new(alloc, mill)?;
    'rounds: for _ in 0..times {
        let mut limits = Limits {
            loss: None,
            count: None,
        };
        let mut last = None;
        path.clear();
        let mut view = CertView::new(certificate);
        'lines: while let Some(Ok(line)) = view.next() {
            match line {
                Line::Point(numbers) => {
                    limits = Limits {
                        loss: Some(one_less(&numbers, 0)),
                        count: last,
                    };
                    last = Some(one_less(&numbers, 1));
                }
                Line::Done => {
                    limits = Limits {
                        loss: None,
                        count: last,
                    }
                }
                Line::Pair(numbers) => split(mill, &mut path, &numbers, true),
                Line::Put(numbers) => split(mill, &mut path, &numbers, false),
                Line::Leaf(numbers) => {
                    ends.note(path.leaf_ok(mill, limits, &numbers).is_ok());
                    path.next_branch();
                }
                _ => {}
            }
        }
    }
    Ok(ends)
}

/// Splits by a pair of orders, or by an order and a surplus slab, if there are such.
fn split(mill: &Mill, path: &mut Path, numbers: &Nums<'_>, is_pair: bool)
    requires orders { path.old.orders ≡ length mill.now.orders }
    requires slabs { path.old.slabs ≡ length mill.now.yard }
    ensures orders { path.new.orders ≡ path.old.orders }
    ensures slabs { path.new.slabs ≡ path.old.slabs }
{
    let first = one_less(numbers, 0).clamp(0, 65535) as u16;
    let second = one_less(numbers, 1).clamp(0, 65535) as u16;
    let orders = mill.orders().len();
    if is_pair && first < second && usize::from(second) < orders {
        path.push(Ask::Pair(first, second));
    } else if !is_pair && usize::from(first) < orders && usize::from(second) < mill.yard().len() {
        path.push(Ask::Put(first, second));
    }
}

/// One less than a number of a line; the greatest where there is none.
fn one_less(numbers: &Nums<'_>, place: usize) -> i64 {
    if place >= numbers.len() {
        return i64::MAX;
    }
    numbers.get(place).saturating_sub(1)
}
