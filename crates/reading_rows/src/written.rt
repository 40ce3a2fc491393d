//! Texts that no run of `worked_rows` writes: a certificate of version 1, a cut within a tree, the summary of a cut; and more
//! lines than a buffer holds.
ghost use Rattle.std.specs.Prelude.{◌≡◌, false, [], IfOk};
ghost use Rattle.mill_model.specs.Marks.{is_question};

use cert_write::{Stored, write_cert, write_version};
use line_out::{LineOut, Said};
use mill_model::{
    Ask, Head, Kind, Mill, OpenTree, Order, Plan, Prices, Proved, Step, Steps, Sums, Version,
};
use mill_report::{Word, say_summary};
use slab_desk::{Act, Desk, MemDesk};
use std::alloc::{AllocError, Global};
use std::test::Fail;

// Two orders of weight 5 and slabs of size 10.
fn mill_of(alloc: Global) -> Result<Mill, AllocError> {
    let order = Order {
        weight: 5,
        colour: 1,
    };
    let sizes = vec![in alloc; 10]?;
    let orders = vec![in alloc; order, order]?;
    Ok(Mill::new(sizes, 1, orders))
}

// A leaf of which both orders are worth the same.
fn leaf_of(alloc: Global, lambda: i8, worth: i8) -> Result<Step, AllocError>
    ensures { IfOk result (λ step. is_question step ≡ false) }
{
    let worth = i64::from(worth);
    let pi = vec![in alloc; worth, worth]?;
    let prices = Prices::new(i64::from(lambda), 0, pi, Vec::new(alloc));
    Ok(Step::Leaf(prices))
}

// A tree of one leaf.
fn tree_of(alloc: Global, lambda: i8, worth: i8) -> Result<Steps, AllocError>
    ensures { IfOk result (λ tree. tree.marks ≡ []) }
{
    let leaf = leaf_of(alloc, lambda, worth)?;
    let steps = vec![in alloc; leaf]?;
    Ok(Steps::new(steps, Vec::new(alloc)))
}

// Both orders lie on one slab without loss.
fn head_of(alloc: Global) -> Result<Head, AllocError> {
    let kinds = vec![in alloc; Kind::New(10)]?;
    let plan = Plan::new(kinds, vec![in alloc; 0, 0]?);
    let sums = Sums { loss: 0, count: 1 };
    let tree = tree_of(alloc, 1, 0)?;
    let points = vec![in alloc; Proved::new(sums, plan, tree)]?;
    Ok(Head::new(points))
}

// A desk that moves three bytes at a time, with a file that was created.
fn desk_of(alloc: Global) -> Result<MemDesk, Fail> {
    let mut desk = MemDesk::new(alloc, Vec::new(alloc), 3, Vec::new(alloc), 128)?;
    desk.create_file("cert")?;
    Ok(desk)
}

#[test]
fn no_plan_in_version_1(rt: HostRuntime) -> Result<(), Fail> {
    let alloc = rt.alloc();
    let mut desk = desk_of(alloc)?;
    let last = tree_of(alloc, 0, 1)?;
    let mill = mill_of(alloc)?;
    write_version(&mill, Version::One, Stored::NoPlan(&last), &mut desk)?;
    assert!(rt; desk.file("cert") == Some(b"slabfront 1\ndone\nleaf 0 0 1 1\n".as_slice()));
    Ok(())
}

#[test]
fn a_cut_within_a_tree(rt: HostRuntime) -> Result<(), Fail> {
    let alloc = rt.alloc();
    let mut desk = desk_of(alloc)?;
    let rest = OpenTree::new(vec![in alloc; Some(Ask::Pair(0, 1)), None, None]?);
    let head = head_of(alloc)?;
    write_cert(&mill_of(alloc)?, Stored::Cut(&head, &rest), &mut desk)?;
    let text = b"slabfront 2\npoint 0 1\nnew 10 1 2\nleaf 1 0 0 0\ncut\npair 1 2\nopen\nopen\n";
    assert!(rt; desk.file("cert") == Some(text.as_slice()));
    Ok(())
}

#[test]
fn the_summary_of_a_cut(rt: HostRuntime) -> Result<(), Fail> {
    let alloc = rt.alloc();
    let mut desk = desk_of(alloc)?;
    let head = head_of(alloc)?;
    say_summary(&mill_of(alloc)?, &head, 7, 1, Word::Budget, &mut desk)?;
    assert!(rt; desk.said() == b"made 2 10\npoint 0 1\nnodes 7 bare 1\nbudget\n".as_slice());
    Ok(())
}

// Says 1,000 lines of 11 bytes, more than the buffer holds, 1,000 bytes at a time.
fn say_lines(desk: &mut MemDesk) -> bool {
    let mut out = LineOut::<Said>::new();
    for _ in 0..1000 {
        out.put(desk, b"point");
        out.number(desk, 7);
        out.signed_number(desk, -1);
        out.end_line(desk);
    }
    out.finish(desk).is_ok()
}

#[test]
fn all_lines_go_out(rt: HostRuntime) -> Result<(), Fail> {
    let alloc = rt.alloc();
    let mut desk = MemDesk::new(alloc, Vec::new(alloc), 1000, Vec::new(alloc), 16384)?;
    assert!(rt; say_lines(&mut desk) && desk.said().len() == 11000);
    assert!(rt; desk.said().starts_with(b"point 7 -1\npoint 7 -1\n"));
    Ok(())
}

#[test]
fn no_call_comes_after_a_failure(rt: HostRuntime) -> Result<(), Fail> {
    let alloc = rt.alloc();
    let failing = vec![in alloc; (Act::Say, 2)]?;
    let mut desk = MemDesk::new(alloc, Vec::new(alloc), 1000, failing, 16384)?;
    assert!(rt; !say_lines(&mut desk) && desk.said().len() == 1000);
    assert!(rt; desk.calls(Act::Say) == 2);
    Ok(())
}
