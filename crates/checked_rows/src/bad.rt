// Certificates with a bad line, and words and files that can't stand.
use crate::row::{Given, STUCK, THREE, TWO, checked, ends_so, lines};
use std::test::Fail;

const POINT: &str = "slabfront 1 / point 0 2 / new 4 1 / new 4 2 / leaf 1 0 0 0 / ";

const BOTH: &str = "point 2 1 / new 10 1 2 / leaf 1 2 2 2";

// What follows the first point of two orders.
fn after_a_point() -> [(&'static str, &'static str); 4] {
    [
        (
            "point 2 1 / new 10 1 2 / leaf 1 2 2 2 / done / leaf 0 1 1 1",
            "certificate line 10 column",
        ),
        ("done / leaf 0 1 1 0", "certificate line 7 sum"),
        (BOTH, "certificate line 9 end"),
        (
            "point 2 1 / new 10 1 2 / leaf 1 2 2 2 / done / leaf 0 1 1 0 / x",
            "certificate line 11 extra",
        ),
    ]
}

#[test]
fn bad_after_a_point(rt: HostRuntime) -> Result<(), Fail> {
    for (tail, said) in after_a_point() {
        let text = format!(in rt.alloc(); "{POINT}{tail}")?;
        let cert = lines(rt.alloc(), text.as_str())?;
        let so = ends_so(rt.alloc(), TWO, &cert, 7, said)?;
        assert!(rt; so, "{said}");
    }
    Ok(())
}

// The last tree of a mill without a plan.
fn leaves() -> [(&'static str, &'static str); 7] {
    [
        ("leaf 0 0 4611686018427387905", "certificate line 3 range"),
        ("leaf 0 0 -4611686018427387904", "certificate line 3 sum"),
        ("leaf 4611686018427387904 0 1", "certificate line 3 missing"),
        ("leaf 1 0 1", "certificate line 3 missing"),
        ("leaf 0 0 01", "certificate line 3 spelling"),
        ("leaf 0 0 -0", "certificate line 3 spelling"),
        ("leaf 0 -1 1", "certificate line 3 sign"),
    ]
}

#[test]
fn bad_leaves(rt: HostRuntime) -> Result<(), Fail> {
    for (leaf, said) in leaves() {
        let text = format!(in rt.alloc(); "slabfront 1 / done / {leaf}")?;
        let cert = lines(rt.alloc(), text.as_str())?;
        let so = ends_so(rt.alloc(), STUCK, &cert, 7, said)?;
        assert!(rt; so, "{leaf}");
    }
    Ok(())
}

const BARRED: Given = Given {
    words: "check orders cert --yard yard",
    orders: "2 4 10 1 2 4 1 4 1",
    yard: "1 8 1 2 1",
};

const PAIR: Given = Given {
    words: "check orders cert",
    orders: "1 10 1 2 5 1 5 1",
    yard: "",
};

const THREE_COLOURS: Given = Given {
    words: "check orders cert",
    orders: "1 9 3 3 3 1 3 2 3 3",
    yard: "",
};

fn certificates() -> [(Given, &'static str, &'static str); 4] {
    [
        (
            PAIR,
            "slabfront 1 / point 0 1 / new 10 1 2 / leaf 1 0 0 0 / done / leaf 0 -1 0 0",
            "certificate line 6 sign",
        ),
        (
            THREE,
            "slabfront 1 / point 5 2 / new 10 1 2 / new 10 3 / pair 1 2 / leaf 1 0 0 0 5 / done / leaf 0 2 1 1 1",
            "certificate line 7 expect",
        ),
        (
            BARRED,
            "slabfront 1 / point 0 0 / old 1 1 2 / leaf 1 0 0 0 0 / cut",
            "certificate line 3 barred",
        ),
        (
            THREE_COLOURS,
            "slabfront 2 / point 0 1 / new 9 1 2 3 / leaf 1 0 0 0 0 / done / leaf 0 9 3 3 3",
            "certificate line 3 colours",
        ),
    ]
}

#[test]
fn bad_certificates(rt: HostRuntime) -> Result<(), Fail> {
    for (given, cert, said) in certificates() {
        let cert = lines(rt.alloc(), cert)?;
        let so = ends_so(rt.alloc(), given, &cert, 7, said)?;
        assert!(rt; so, "{said}");
    }
    Ok(())
}

// Words, orders, a yard, the status, what is said, and how many files are opened.
fn refused() -> [(Given, u8, &'static str, u32); 5] {
    [
        (
            given("check orders cert", "1 10 1 1 5 2", ""),
            2,
            "input orders word 6 colour",
            1,
        ),
        (
            given("check orders cert --yard yard", "1 10 1 1 5", "1 9"),
            2,
            "input orders word 6 missing",
            1,
        ),
        (
            given("check orders cert --yard yard", "1 10 1 1 5 1", "1 8 1 3 1"),
            2,
            "input yard word 4 range",
            2,
        ),
        (
            given(
                "check orders cert --yard yard",
                "2 4 10 1 2 4 1 4 1",
                "1 8 1 2",
            ),
            2,
            "input yard word 5 missing",
            2,
        ),
        (
            given("check orders cert --colours 4", "1 10 1 1 5 1", ""),
            1,
            "usage word 5",
            0,
        ),
    ]
}

fn given(words: &'static str, orders: &'static str, yard: &'static str) -> Given {
    Given {
        words,
        orders,
        yard,
    }
}

// The first refusal ends a run: no file after it is opened.
#[test]
fn refused_before_the_certificate(rt: HostRuntime) -> Result<(), Fail> {
    for (given, status, said, opened) in refused() {
        let end = checked(rt.alloc(), given, b"slabfront 1\n", 7)?;
        assert_eq!(rt;
            end.said.as_slice(),
            lines(rt.alloc(), said)?.as_slice(),
            "{said}"
        );
        assert_eq!(rt; end.status, status, "{said}");
        assert_eq!(rt; end.opened, opened, "{said}");
    }
    Ok(())
}
