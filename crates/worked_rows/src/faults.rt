// Each call of a desk fails in turn.
use crate::desks::Files;
use crate::resume::CUT;
use crate::row::{Row, failing_row, run_row};
use slab_desk::Act;
use std::alloc::Global;
use std::test::Fail;

// More calls of one kind than any run here makes.
const MANY: u32 = 1000;

// The words, the plan file or the cut, and the yard file.
fn runs() -> [(&'static str, &'static str, &'static str); 3] {
    [
        ("solve orders cert --yard yard", "", "1 9"),
        ("judge orders plan --yard yard", "2 old 1 old 1 1 2", "1 9"),
        ("resume orders plan cert", CUT, "0"),
    ]
}

#[test]
fn a_run_ends_at_the_call_that_fails(rt: HostRuntime) -> Result<(), Fail> {
    for (words, plan, yard) in runs() {
        let files = Files {
            orders: b"2 4 10 1 2 4 1 4 1",
            plan: plan.as_bytes(),
            yard: yard.as_bytes(),
        };
        let whole = run_row(rt.alloc(), words, files)?;
        for act in [Act::OpenFile, Act::Read, Act::Create, Act::Write, Act::Say] {
            let failed = failures(rt.alloc(), words, files, act, &whole)?;
            assert!(rt; failed, "{words} {act:?}");
        }
    }
    Ok(())
}

// Whether the run stops at each call of a kind that fails.
fn failures(
    alloc: Global,
    words: &str,
    files: Files<'_>,
    act: Act,
    whole: &Row,
) -> Result<bool, Fail> {
    for call in 1..MANY {
        match failing_row(alloc, words, files, act, call)? {
            Some(short) if !stops(&short, whole, act) => return Ok(false),
            Some(_) => {}
            None => return Ok(call > 1 || !is_made(words, act)),
        }
    }
    Ok(false)
}

// Whether a run of these words makes calls of this kind: only a search creates and writes.
fn is_made(words: &str, act: Act) -> bool {
    !words.starts_with("judge") || (act != Act::Create && act != Act::Write)
}

// The status is 5, no call comes after the failure, and what was said and stored begins as without it. A certificate is there only
// where a create succeeded, and a run makes one.
fn stops(short: &Row, whole: &Row, act: Act) -> bool {
    let created = act == Act::Write || act == Act::Say;
    short.status == 5
        && short.faults == 1
        && short.stopped
        && whole.said.starts_with(&short.said)
        && begins(short, whole)
        && (created || short.stored.is_none())
}

// What was stored begins as without a failure.
fn begins(short: &Row, whole: &Row) -> bool {
    match (&short.stored, &whole.stored) {
        (None, _) => true,
        (Some(begun), Some(bytes)) => bytes.starts_with(begun),
        (Some(_), None) => false,
    }
}

const ONE: Files<'static> = Files {
    orders: b"1 10 1 2 5 1 5 1",
    plan: b"",
    yard: b"",
};

// Whether nothing was said, and this was stored.
fn is_left(row: &Row, stored: Option<&str>) -> bool {
    let is_stored = match (&row.stored, stored) {
        (Some(bytes), Some(text)) => bytes.as_slice() == text.as_bytes(),
        (None, None) => true,
        _ => false,
    };
    is_stored && row.status == 5 && row.said.is_empty()
}

// A file that isn't there, a certificate that can't be created, and a report that can't be said.
#[test]
fn what_is_left_of_a_fault(rt: HostRuntime) -> Result<(), Fail> {
    let absent = run_row(rt.alloc(), "solve none cert", ONE)?;
    assert!(rt; is_left(&absent, None));
    let stored = "slabfront 2\npoint 0 1\nnew 10 1 2\nleaf 1 0 0 0\ndone\nleaf 0 10 5 5\n";
    for (act, text) in [(Act::Create, None), (Act::Say, Some(stored))] {
        let holds = match failing_row(rt.alloc(), "solve orders cert", ONE, act, 1)? {
            Some(row) => is_left(&row, text),
            None => false,
        };
        assert!(rt; holds, "{act:?}");
    }
    Ok(())
}
