// Good certificates of version 1, whole and cut.
use crate::row::{Given, STUCK, THREE, TWO, TWO_AND_NINE, ends_so, lines};
use std::test::Fail;

const WHOLE: &str =
    "slabfront 1 / point 0 2 / new 4 1 / new 4 2 / leaf 1 0 0 0 / point 2 1 / new 10 1 2 / leaf 1 2 2 2 / done / leaf 0 1 1 0";

const OLD_SLAB: &str =
    "slabfront 1 / point 0 2 / new 4 1 / new 4 2 / leaf 1 0 0 0 0 / point 1 0 / old 1 1 2 / leaf 2 1 1 1 0 / done / leaf 0 1 0 0 0";

const CUT: &str = "slabfront 1 / point 0 2 / new 4 1 / new 4 2 / leaf 1 0 0 0 / cut / open";

const SPLIT: &str =
    "slabfront 1 / point 5 2 / new 10 1 2 / new 10 3 / pair 1 2 / leaf 1 0 0 0 5 / leaf 1 0 5 5 -5 / done / leaf 0 2 1 1 1";

const THREE_COLOURS: &str =
    "slabfront 2 / point 0 1 / new 9 1 2 3 / leaf 1 0 0 0 0 / done / leaf 0 9 3 3 3";

const STUCK_PAIR: Given = Given {
    words: "check orders cert --yard yard",
    orders: "1 4 1 2 5 1 5 1",
    yard: "1 9",
};

const THREE_FREE: Given = Given {
    words: "check orders cert --colours 3",
    orders: "1 9 3 3 3 1 3 2 3 3",
    yard: "",
};

fn rows() -> [(Given, &'static str, u8, &'static str); 8] {
    [
        (TWO, WHOLE, 0, "front 2 / point 0 2 / point 2 1 / proved"),
        (
            TWO_AND_NINE,
            OLD_SLAB,
            0,
            "front 2 / point 0 2 / point 1 0 / proved",
        ),
        (TWO, CUT, 3, "front 1 / point 0 2 / cut"),
        (THREE, SPLIT, 0, "front 1 / point 5 2 / proved"),
        (STUCK, "slabfront 1 / done / leaf 0 0 1", 4, "noplan"),
        (
            STUCK,
            "slabfront 1 / done / leaf 0 0 4611686018427387904",
            4,
            "noplan",
        ),
        (
            STUCK_PAIR,
            "slabfront 1 / done / leaf 0 0 1 1 1",
            4,
            "noplan",
        ),
        (THREE_FREE, THREE_COLOURS, 0, "front 1 / point 0 1 / proved"),
    ]
}

#[test]
fn good_certificates(rt: HostRuntime) -> Result<(), Fail> {
    for (given, cert, status, said) in rows() {
        let cert = lines(rt.alloc(), cert)?;
        let so = ends_so(rt.alloc(), given, &cert, status, said)?;
        assert!(rt; so, "{said}");
    }
    Ok(())
}
