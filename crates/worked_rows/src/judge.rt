// Plans that are judged.
use crate::desks::Files;
use crate::row::ends_so;
use std::alloc::{AllocError, Global};
use std::test::Fail;

const TWO: &str = "2 4 10 1 2 4 1 4 1";

const THREE_COLOURS: &str = "1 9 3 3 3 1 3 2 3 3";

// Order file, plan file, yard file, options, status, and what is said.
type Judged = (
    &'static str,
    &'static str,
    &'static str,
    &'static str,
    u8,
    &'static str,
);

fn judged() -> [Judged; 8] {
    [
        (TWO, "1 new 10 1 1", "", "", 0, "legal 2 1\n"),
        (TWO, "1 new 10 1 3", "", "", 8, "illegal order 2 place\n"),
        (
            TWO,
            "2 old 1 old 1 1 2",
            "1 9",
            " --yard yard",
            8,
            "illegal slab 2 twice\n",
        ),
        (
            TWO,
            "1 old 1 1 1",
            "1 8 1 2 1",
            " --yard yard",
            8,
            "illegal slab 1 barred\n",
        ),
        (TWO, "1 old 1 1 1", "1 8", " --yard yard", 0, "legal 0 0\n"),
        (
            THREE_COLOURS,
            "1 new 9 1 1 1",
            "",
            "",
            8,
            "illegal slab 1 colours\n",
        ),
        (
            THREE_COLOURS,
            "1 new 9 1 1 1",
            "",
            " --colours 3",
            0,
            "legal 0 1\n",
        ),
        (TWO, "1 mew 10 1 1", "", "", 2, "input plan word 2 kind\n"),
    ]
}

fn holds(alloc: Global, row: Judged) -> Result<bool, AllocError> {
    let (orders, plan, yard, options, status, said) = row;
    let words = format!(in alloc; "judge orders plan{options}")?;
    let files = Files {
        orders: orders.as_bytes(),
        plan: plan.as_bytes(),
        yard: yard.as_bytes(),
    };
    ends_so(alloc, words.as_str(), files, status, said)
}

#[test]
fn a_plan_is_judged(rt: HostRuntime) -> Result<(), Fail> {
    for row in judged() {
        assert!(rt; holds(rt.alloc(), row)?, "{}", row.1);
    }
    Ok(())
}
