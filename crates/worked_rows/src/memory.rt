// Memory that may run out. bench/refused_memory.sh runs this test once for each allocation, which then fails.
use crate::desks::Files;
use crate::resume::CUT;
use crate::row::{Row, run_row};
use std::test::Fail;

// The words, the plan file or the cut, and the status where memory is ample.
fn runs() -> [(&'static str, &'static str, u8); 3] {
    [
        ("solve orders cert --yard yard", "", 0),
        ("judge orders plan --yard yard", "2 old 1 old 1 1 2", 8),
        ("resume orders plan cert", CUT, 0),
    ]
}

#[test]
fn memory_may_run_out(rt: HostRuntime) -> Result<(), Fail> {
    for (words, plan, status) in runs() {
        let files = Files {
            orders: b"2 4 10 1 2 4 1 4 1",
            plan: plan.as_bytes(),
            yard: b"1 9",
        };
        // Where the row's own memory is wanting, there is nothing to see.
        if let Ok(row) = run_row(rt.alloc(), words, files) {
            assert!(rt; row.status == status || ran_out(&row), "{words}");
        }
    }
    Ok(())
}

// Only that was said, and no file was created.
fn ran_out(row: &Row) -> bool {
    row.status == 6 && row.said.as_slice() == b"memory\n".as_slice() && row.stored.is_none()
}
