//! Leaves that a reader can test by hand, where the loss is at most 2.
ghost use Rattle.std.specs.Prelude.{◌≡◌, ◌<◌, ◌∷◌, [], true, IfOk, length};

use crate::mills::{NO_YARD, THREE_COLOURS, THREE_FIVES, mill_of};
use cert_view::{CertView, Line, Nums};
use mill_model::{Ask, Kind, Limits, Mill};
use price_check::{Bad, Path};
use std::alloc::{AllocError, Global};
use std::test::Fail;

// A small surplus slab, from which the first order is barred.
const SMALL_SLAB: &str = "1 3 1 1 1";

// Two such orders lie on a slab, or three.
const TWO_OF_COLOURS: Given = (THREE_COLOURS, SMALL_SLAB, 2);

const THREE_OF_COLOURS: Given = (THREE_COLOURS, SMALL_SLAB, 3);

const FIVES: Given = (THREE_FIVES, NO_YARD, 2);

// An order file, a yard file, and the most colours on a slab.
type Given = (&'static str, &'static str, u16);

// What a leaf comes to.
#[derive(Clone, Copy, PartialEq, Eq, Debug)]
enum Came {
    Refutes,
    // A column on this kind of slab exceeds, of so many orders.
    Exceeds(Kind, usize),
    Breaks(Bad),
    // It is no leaf.
    Nothing,
}

// The numbers of a leaf's line.
fn numbers_of(text: &[u8]) -> Option<Nums<'_>> {
    match CertView::new(text).next() {
        Some(Ok(Line::Leaf(numbers))) => Some(numbers),
        _ => None,
    }
}

// A path on which nothing is decided, or whether the first two orders lie together.
fn path_of(alloc: Global, mill: &Mill, together: Option<bool>) -> Result<Path, AllocError>
    ensures orders { IfOk result (λ path. path.orders ≡ length mill.now.orders) }
    ensures slabs { IfOk result (λ path. path.slabs ≡ length mill.now.yard) }
{
    let mut path = Path::new(alloc, mill)?;
    if mill.orders().len() < 2 {
        return Ok(path);
    }
    match together {
        Some(true) => {
            path.push(Ask::Pair(0, 1));
        }
        Some(false) => {
            path.push(Ask::Pair(0, 1));
            path.next_branch();
        }
        None => {}
    }
    Ok(path)
}

fn came_to(alloc: Global, given: Given, together: Option<bool>, text: &str) -> Result<Came, Fail> {
    let (orders, yard, colours) = given;
    let mill = mill_of(alloc, orders, yard, colours)?;
    let mut path = path_of(alloc, &mill, together)?;
    let Some(numbers) = numbers_of(text.as_bytes()) else {
        return Ok(Came::Nothing);
    };
    let limits = Limits {
        loss: Some(2),
        count: None,
    };
    match path.leaf_ok(&mill, limits, &numbers) {
        Ok(()) => Ok(Came::Refutes),
        Err(Bad::Column) => {
            let (kind, orders) = path.bad_column();
            Ok(Came::Exceeds(kind, orders.len()))
        }
        Err(bad) => Ok(Came::Breaks(bad)),
    }
}

#[test]
fn a_leaf_comes_to(rt: HostRuntime) -> Result<(), Fail> {
    let apart = Some(false);
    for (given, together, text, came) in [
        (TWO_OF_COLOURS, None, "leaf 2 0 3 3 3 3\n", Came::Refutes),
        (
            THREE_OF_COLOURS,
            None,
            "leaf 2 0 3 3 3 3\n",
            Came::Exceeds(Kind::New(9), 3),
        ),
        (THREE_OF_COLOURS, apart, "leaf 2 0 3 3 3 3\n", Came::Refutes),
        (
            THREE_OF_COLOURS,
            apart,
            "leaf 2 0 3 3 3\n",
            Came::Breaks(Bad::Count),
        ),
        // the first order is barred from the surplus slab, the second isn't
        (TWO_OF_COLOURS, None, "leaf 2 0 6 0 0 0\n", Came::Refutes),
        (
            TWO_OF_COLOURS,
            None,
            "leaf 2 0 0 6 0 0\n",
            Came::Exceeds(Kind::Old(0), 1),
        ),
        // both answers to one question
        (FIVES, Some(true), "leaf 1 0 0 0 5\n", Came::Refutes),
        (FIVES, apart, "leaf 1 0 5 5 -5\n", Came::Refutes),
    ] {
        assert!(rt;
            came_to(rt.alloc(), given, together, text)? == came,
            "{text}"
        );
    }
    Ok(())
}

// Whether the path lets the first two orders lie together on a new slab, and the first without the second.
fn lets(path: &Path) -> (bool, bool)
    requires { 2 < path.now.orders }
{
    let new = Kind::New(10);
    (path.agrees(new, &[0, 1]), path.agrees(new, &[0, 2]))
}

#[test]
fn a_path_goes_down_a_tree(rt: HostRuntime) -> Result<(), Fail> {
    let mill = mill_of(rt.alloc(), THREE_FIVES, NO_YARD, 2)?;
    assert!(rt; mill.orders().len() == 3);
    let mut path = path_of(rt.alloc(), &mill, Some(true))?;
    assert!(rt; lets(&path) == (true, false));
    assert!(rt; path.next_branch() && !path.push(Ask::Pair(0, 1)));
    assert!(rt; lets(&path) == (false, true));
    path.clear();
    assert!(rt; lets(&path) == (true, true) && !path.next_branch());
    Ok(())
}
