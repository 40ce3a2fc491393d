//! Steps and nodes once, both ways.
use crate::{Node, nodes_of_steps, steps_of_nodes};
use mill_model::{Ask, Mark, Prices, Step, Steps};
use std::alloc::{AllocError, Global};
use std::test::Fail;

// Prices of one order, without a surplus slab.
fn prices(alloc: Global, lambda: i8) -> Result<Prices, AllocError> {
    let pi = vec![in alloc; 0; 1]?;
    Ok(Prices::new(i64::from(lambda), 0, pi, Vec::new(alloc)))
}

// A question with two leaves.
fn nodes(alloc: Global) -> Result<Vec<Node>, AllocError> {
    let mut nodes = Vec::new(alloc);
    nodes.push(Node::Branched(Ask::Put(2, 1), Mark::Bare))?;
    nodes.push(Node::Closed(prices(alloc, 3)?))?;
    nodes.push(Node::Closed(prices(alloc, 4)?))?;
    Ok(nodes)
}

#[test]
fn nodes_become_steps(rt: HostRuntime) -> Result<(), Fail> {
    let alloc = rt.alloc();
    let steps = steps_of_nodes(alloc, nodes(alloc)?)?;
    assert_eq!(rt; steps.list().len(), 3);
    assert_eq!(rt; steps.marks().len(), 1);
    assert!(rt; matches!(&steps.list()[0], Step::Put(2, 1)));
    assert!(rt; matches!(&steps.marks()[0], Mark::Bare));
    Ok(())
}

#[test]
fn steps_become_nodes(rt: HostRuntime) -> Result<(), Fail> {
    let alloc = rt.alloc();
    let steps = steps_of_nodes(alloc, nodes(alloc)?)?;
    let nodes = nodes_of_steps(alloc, steps)?;
    assert_eq!(rt; nodes.len(), 3);
    assert!(rt; matches!(&nodes[0], Node::Branched(Ask::Put(2, 1), Mark::Bare)));
    assert!(rt; matches!(&nodes[2], Node::Closed(last) if last.lambda() == 4));
    Ok(())
}
