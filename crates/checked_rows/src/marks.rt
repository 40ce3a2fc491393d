// Certificates of version 2, for three orders of weight 5 and the size 10.
use crate::row::{THREE, ends_so, lines};
use std::alloc::{AllocError, Global};
use std::test::Fail;

const HEAD: &str = "slabfront 2 / point 5 2 / new 10 1 2 / new 10 3";

const TAIL: &str = "pair 1 2 / leaf 1 0 0 0 5 / leaf 1 0 5 5 -5 / done / leaf 0 2 1 1 1";

// What stands before the question, how a check ends, and what it says.
fn rows() -> [(&'static str, u8, &'static str); 6] {
    [
        (
            " / spread 2 / cnew 1 10 1 2 / cnew 1 10 1 3 / cnew 1 10 2 3 / ",
            0,
            "front 1 / point 5 2 / proved",
        ),
        (" / bare / ", 0, "front 1 / point 5 2 / proved"),
        (" / plain / ", 0, "front 1 / point 5 2 / proved"),
        (" / ", 7, "certificate line 5 expect"),
        (
            " / spread 2 / cnew 1 10 1 2 / cnew 1 10 1 3 / ",
            7,
            "certificate line 8 cover",
        ),
        (
            " / spread 1 / cnew 1 10 1 2 / cnew 1 10 3 / ",
            7,
            "certificate line 8 loss",
        ),
    ]
}

fn with_mark(alloc: Global, mark: &str) -> Result<Vec<u8>, AllocError> {
    let text = format!(in alloc; "{HEAD}{mark}{TAIL}")?;
    lines(alloc, text.as_str())
}

#[test]
fn marked_questions(rt: HostRuntime) -> Result<(), Fail> {
    for (mark, status, said) in rows() {
        let cert = with_mark(rt.alloc(), mark)?;
        let so = ends_so(rt.alloc(), THREE, &cert, status, said)?;
        assert!(rt; so, "{mark}");
    }
    Ok(())
}
