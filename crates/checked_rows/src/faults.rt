// Each call of a desk fails in turn.
use crate::row::{Ended, TWO_AND_NINE, checked, failing, lines};
use slab_desk::Act;
use std::alloc::{AllocError, Global};
use std::test::Fail;

// More calls of one kind than any check here makes.
const MANY: u32 = 1000;

const OLD_SLAB: &str =
    "slabfront 1 / point 0 2 / new 4 1 / new 4 2 / leaf 1 0 0 0 0 / point 1 0 / old 1 1 2 / leaf 2 1 1 1 0 / done / leaf 0 1 0 0 0";

#[test]
fn a_check_ends_at_the_call_that_fails(rt: HostRuntime) -> Result<(), Fail> {
    let cert = lines(rt.alloc(), OLD_SLAB)?;
    let whole = checked(rt.alloc(), TWO_AND_NINE, &cert, 3)?;
    assert_eq!(rt; whole.status, 0);
    for act in [Act::OpenFile, Act::Read, Act::Say] {
        let failed = failures(rt.alloc(), &cert, act, &whole)?;
        assert!(rt; failed, "{act:?}");
    }
    Ok(())
}

// Whether the check stops at each call of a kind that fails.
fn failures(alloc: Global, cert: &[u8], act: Act, whole: &Ended) -> Result<bool, AllocError> {
    for call in 1..MANY {
        match failing(alloc, TWO_AND_NINE, cert, act, call)? {
            Some(short) if !stops(&short, whole) => return Ok(false),
            Some(_) => {}
            None => return Ok(call > 1),
        }
    }
    Ok(false)
}

// The status is 5, no call comes after the failure, no file is created, and what was said begins as without it.
fn stops(short: &Ended, whole: &Ended) -> bool {
    short.status == 5
        && short.faults == 1
        && short.stopped
        && short.created == 0
        && whole.said.starts_with(&short.said)
}
