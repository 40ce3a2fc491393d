// Mills of many orders, two of which lie on each slab.
use crate::desks::Files;
use crate::row::ends_so;
use std::alloc::{AllocError, Global};
use std::test::Fail;

// Sizes, colours and number of orders.
const REALISTIC: &str = "20 12 14 17 18 19 20 23 24 25 26 27 28 29 30 32 35 39 42 43 44 88 111";

// So many equal orders.
fn fives(alloc: Global, count: u8) -> Result<String, AllocError> {
    let mut orders = format!(in alloc; "1 10 1 {count}")?;
    for _ in 0..count {
        orders.push_str(" 5 1")?;
    }
    Ok(orders)
}

fn said_of_forty(alloc: Global) -> Result<String, AllocError> {
    let mut said = String::from_str(alloc, "front 1\npoint 0 20\n")?;
    push_pairs(alloc, &mut said, 10, 20)?;
    said.push_str("nodes 2 bare 0\ncomplete\n")?;
    Ok(said)
}

#[test]
fn forty_equal_orders(rt: HostRuntime) -> Result<(), Fail> {
    let orders = fives(rt.alloc(), 40)?;
    let said = said_of_forty(rt.alloc())?;
    assert!(rt; holds(rt.alloc(), orders.as_str(), " --nodes 2", said.as_str())?);
    Ok(())
}

// Pairs of equal orders, and a last order.
fn realistic(alloc: Global) -> Result<String, AllocError> {
    let mut orders = String::from_str(alloc, REALISTIC)?;
    for index in 0..110u32 {
        let colour = index % 88 + 1;
        let order = format!(in alloc; " 22 {colour}")?;
        orders.push_str(order.as_str())?;
    }
    orders.push_str(" 44 23")?;
    Ok(orders)
}

fn said_of_realistic(alloc: Global) -> Result<String, AllocError> {
    let mut said = String::from_str(alloc, "front 1\npoint 0 56\n")?;
    push_pairs(alloc, &mut said, 44, 55)?;
    said.push_str("new 44 111\nnodes 2 bare 0\ncomplete\n")?;
    Ok(said)
}

#[test]
fn orders_of_many_colours(rt: HostRuntime) -> Result<(), Fail> {
    let orders = realistic(rt.alloc())?;
    let said = said_of_realistic(rt.alloc())?;
    assert!(rt; holds(rt.alloc(), orders.as_str(), "", said.as_str())?);
    Ok(())
}

// Whether this front is said of the orders.
fn holds(alloc: Global, orders: &str, options: &str, said: &str) -> Result<bool, AllocError> {
    let words = format!(in alloc; "solve orders cert{options}")?;
    ends_so(alloc, words.as_str(), orders_alone(orders), 0, said)
}

fn orders_alone(orders: &str) -> Files<'_> {
    Files {
        orders: orders.as_bytes(),
        plan: b"",
        yard: b"",
    }
}

// So many new slabs of this size, with two orders on each.
fn push_pairs(alloc: Global, text: &mut String, size: u16, count: u8) -> Result<(), AllocError> {
    for pair in 0..count {
        let second = u16::from(pair) * 2 + 2;
        let first = second - 1;
        let line = format!(in alloc; "new {size} {first} {second}\n")?;
        text.push_str(line.as_str())?;
    }
    Ok(())
}
