//! Plans that a start is completed to, and that a search by neighbourhoods finds: three orders that lie without loss on three slabs, and on two.
use crate::mills::{NO_YARD, mill_of};
use loss_table::LossTable;
use mill_model::{Kind, Limits, Mill, Plan};
use slab_repack::Repack;
use std::alloc::{AllocError, Global};
use std::test::Fail;

// The orders, and slabs that hold one or two of them.
const ORDERS: &str = "2 5 10 1 3 5 1 5 1 5 1";

// The search in a mill.
fn repack_of(alloc: Global, mill: &Mill) -> Result<Repack, AllocError> {
    let table = LossTable::new(alloc, mill)?;
    Repack::new(alloc, mill, &table)
}

// Each order alone.
fn plan_of_three(alloc: Global) -> Result<Plan, AllocError> {
    let kinds = vec![in alloc; Kind::New(5), Kind::New(5), Kind::New(5)]?;
    let place = vec![in alloc; 0, 1, 2]?;
    Ok(Plan::new(kinds, place))
}

fn within(count: i64) -> Limits {
    Limits {
        loss: None,
        count: Some(count),
    }
}

// The loss and the count of the plan that is found within a count limit.
fn least(
    repack: &mut Repack,
    alloc: Global,
    mill: &Mill,
    count: i64,
) -> Result<Option<(u32, u16)>, AllocError> {
    let found = repack.search(alloc, mill, within(count), 0, 1000)?;
    Ok(sums_of(mill, found))
}

// The loss and the count of the start, completed to a plan within a count limit.
fn completed(
    repack: &mut Repack,
    alloc: Global,
    mill: &Mill,
    count: i64,
) -> Result<Option<(u32, u16)>, AllocError> {
    let found = repack.completed(alloc, mill, within(count))?;
    Ok(sums_of(mill, found))
}

fn sums_of(mill: &Mill, found: Option<Plan>) -> Option<(u32, u16)> {
    match found?.judge(mill) {
        Ok(sums) => Some((sums.loss, sums.count)),
        Err(_) => None,
    }
}

#[test]
fn a_plan_is_found(rt: HostRuntime) -> Result<(), Fail> {
    let alloc = rt.alloc();
    let mill = mill_of(alloc, ORDERS, NO_YARD, 2)?;
    let mut repack = repack_of(alloc, &mill)?;
    repack.seed(&plan_of_three(alloc)?);
    assert!(rt; least(&mut repack, alloc, &mill, 2)? == Some((0, 2)));
    assert!(rt; repack.steps() > 0);
    repack.clear();
    assert!(rt; least(&mut repack, alloc, &mill, 1)? == None);
    Ok(())
}

#[test]
fn a_column_is_taken(rt: HostRuntime) -> Result<(), Fail> {
    let alloc = rt.alloc();
    let mill = mill_of(alloc, ORDERS, NO_YARD, 2)?;
    let mut repack = repack_of(alloc, &mill)?;
    assert!(rt; repack.take(Kind::New(10), &[1, 2]) && !repack.take(Kind::New(10), &[0, 1]));
    assert!(rt; completed(&mut repack, alloc, &mill, 1)? == None);
    assert!(rt; completed(&mut repack, alloc, &mill, 2)? == Some((0, 2)));
    assert!(rt; least(&mut repack, alloc, &mill, 2)? == Some((0, 2)));
    Ok(())
}
