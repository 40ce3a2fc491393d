// Words and files that are refused.
use crate::desks::Files;
use crate::row::{ends_so, only_says};
use std::alloc::{AllocError, Global};
use std::test::Fail;

// The words, and what is said of them.
fn words() -> [(&'static str, &'static str); 13] {
    [
        ("", "usage word 1\n"),
        ("solve a", "usage word 3\n"),
        ("solve a b --nodes 0", "usage word 5\n"),
        ("solve a b --yard y --yard z", "usage word 6\n"),
        ("solve a b --colours 4", "usage word 5\n"),
        ("judge a b --colours 4", "usage word 5\n"),
        ("resume a b", "usage word 4\n"),
        ("resume a b c --nodes 0", "usage word 6\n"),
        ("solve a b --rounds 10001", "usage word 5\n"),
        ("solve a b --seed 4294967296", "usage word 5\n"),
        ("solve a b --rounds 1 --rounds 1", "usage word 6\n"),
        ("judge a b --rounds 1", "usage word 4\n"),
        ("resume a b c --rounds 1 --seed", "usage word 8\n"),
    ]
}

const NO_FILES: Files<'static> = Files {
    orders: b"",
    plan: b"",
    yard: b"",
};

#[test]
fn words_that_can_not_stand_are_named(rt: HostRuntime) -> Result<(), Fail> {
    for (words, said) in words() {
        assert!(rt; only_says(rt.alloc(), words, NO_FILES, 1, said)?, "{words}");
    }
    Ok(())
}

// Order file, yard file, the words, and what is said. A file `none` isn't there: bad orders come before a plan or a yard that
// isn't, and a bad yard before a plan that isn't.
type Refused = (&'static str, &'static str, &'static str, &'static str);

fn refused() -> [Refused; 10] {
    let solve = "solve orders cert";
    let yard = "solve orders cert --yard yard";
    [
        ("1 10 1 1 5 2", "", solve, "input orders word 6 colour\n"),
        ("1 10 1 1 5", "", solve, "input orders word 6 missing\n"),
        ("1 10 1 1 5 1 7", "", solve, "input orders word 7 extra\n"),
        ("1 10001 1 1 5 1", "", solve, "input orders word 2 range\n"),
        (
            "2 4 10 1 2 4 1 4 1",
            "1 8 1 3 1",
            yard,
            "input yard word 4 range\n",
        ),
        (
            "2 4 10 1 2 4 1 4 1",
            "1 8 1 2",
            yard,
            "input yard word 5 missing\n",
        ),
        (
            "x",
            "0",
            "judge orders none",
            "input orders word 1 number\n",
        ),
        (
            "x",
            "0",
            "judge orders none --yard none",
            "input orders word 1 number\n",
        ),
        (
            "x",
            "0",
            "solve orders cert --yard none",
            "input orders word 1 number\n",
        ),
        (
            "1 10 1 0",
            "x",
            "judge orders none --yard yard",
            "input yard word 1 number\n",
        ),
    ]
}

#[test]
fn a_file_has_a_first_fault(rt: HostRuntime) -> Result<(), Fail> {
    for (orders, yard, words, said) in refused() {
        let files = Files {
            orders: orders.as_bytes(),
            plan: b"0",
            yard: yard.as_bytes(),
        };
        assert!(rt; only_says(rt.alloc(), words, files, 2, said)?, "{words}");
    }
    Ok(())
}

// Whether an order file of so many spaces is refused so.
fn is_long(alloc: Global, count: usize, said: &str) -> Result<bool, AllocError> {
    let orders = vec![in alloc; b' '; count]?;
    let files = Files {
        orders: &orders,
        plan: b"",
        yard: b"",
    };
    ends_so(alloc, "solve orders cert", files, 2, said)
}

#[test]
fn a_file_may_be_too_long(rt: HostRuntime) -> Result<(), Fail> {
    assert!(rt; is_long(rt.alloc(), 1048576, "input orders word 1 missing\n")?);
    assert!(rt; is_long(rt.alloc(), 1048577, "input orders long\n")?);
    Ok(())
}
