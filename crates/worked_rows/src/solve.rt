// Mills that are solved, and mills that are made.
use crate::desks::Files;
use crate::row::{Row, only_says, run_row};
use std::alloc::{AllocError, Global};
use std::test::Fail;

const NO_ORDERS: &str = "1 10 1 0";

const ONE: &str = "1 10 1 2 5 1 5 1";

const TWO: &str = "2 4 10 1 2 4 1 4 1";

const THREE_COLOURS: &str = "1 9 3 3 3 1 3 2 3 3";

const THREE_FIVES: &str = "1 10 1 3 5 1 5 1 5 1";

const FIVE_FIVES: &str = "1 10 1 5 5 1 5 1 5 1 5 1 5 1";

// The run of `solve orders cert` and these options.
fn solved(alloc: Global, orders: &str, yard: &str, options: &str) -> Result<Row, AllocError> {
    let words = format!(in alloc; "solve orders cert{options}")?;
    let files = Files {
        orders: orders.as_bytes(),
        plan: b"",
        yard: yard.as_bytes(),
    };
    run_row(alloc, words.as_str(), files)
}

// Order file, yard file, options, status, and what is said.
type Said = (&'static str, &'static str, &'static str, u8, &'static str);

const FRONT_OF_NONE: &str = "front 1\npoint 0 0\nnodes 2 bare 0\ncomplete\n";

const FRONT_OF_ONE: &str = "front 1\npoint 0 1\nnew 10 1 2\nnodes 2 bare 0\ncomplete\n";

const FRONT_OF_FIVES: &str = "front 1\npoint 5 2\nnew 10 1 2\nnew 10 3\nnodes 4 bare 0\ncomplete\n";

fn fronts() -> [Said; 7] {
    [
        (ONE, "", "", 0, FRONT_OF_ONE),
        ("\t1\r\n10 1\n2 005 1 5\x0b1\r\n", "", "", 0, FRONT_OF_ONE),
        (NO_ORDERS, "", "", 0, FRONT_OF_NONE),
        (
            THREE_COLOURS,
            "",
            "",
            0,
            "front 1\npoint 9 2\nnew 9 1 2\nnew 9 3\nnodes 4 bare 0\ncomplete\n",
        ),
        (
            "1 4 1 1 5 1",
            "",
            "",
            4,
            "front 0\nnodes 1 bare 0\nnoplan\n",
        ),
        (
            "1 4 1 2 5 1 5 1",
            "1 9",
            " --yard yard",
            4,
            "front 0\nnodes 1 bare 0\nnoplan\n",
        ),
        (THREE_FIVES, "", "", 0, FRONT_OF_FIVES),
    ]
}

fn fronts_by_options() -> [Said; 8] {
    let three_together = "front 1\npoint 0 1\nnew 9 1 2 3\nnodes 2 bare 0\ncomplete\n";
    let three_apart = "front 1\npoint 18 3\nnew 9 1\nnew 9 2\nnew 9 3\nnodes 2 bare 0\ncomplete\n";
    [
        (THREE_COLOURS, "", " --colours 3", 0, three_together),
        (THREE_COLOURS, "", " --colours 1", 0, three_apart),
        (THREE_FIVES, "", " --nodes 3", 0, FRONT_OF_FIVES),
        (
            THREE_FIVES,
            "",
            " --nodes 2",
            3,
            "front 0\nnodes 1 bare 0\nbudget\n",
        ),
        (
            NO_ORDERS,
            "",
            " --rounds 10000 --seed 4294967295",
            0,
            FRONT_OF_NONE,
        ),
        // The round's plan has loss 0 and count 2, and doesn't replace the first-fit plan.
        (
            "2 4 8 1 2 4 1 4 1",
            "",
            " --rounds 1 --seed 0 --nodes 2",
            0,
            "front 1\npoint 0 1\nnew 8 1 2\nnodes 2 bare 0\ncomplete\n",
        ),
        // A round that forgot the colour limit would put all three on one slab, or two.
        (
            THREE_COLOURS,
            "",
            " --rounds 20 --colours 1",
            0,
            three_apart,
        ),
        (
            THREE_COLOURS,
            "",
            " --colours 3 --seed 7 --rounds 20",
            0,
            three_together,
        ),
    ]
}

// Whether `solve` of these files ends with this status and says this.
fn is_said(alloc: Global, row: Said) -> Result<bool, AllocError> {
    let (orders, yard, options, status, said) = row;
    let row = solved(alloc, orders, yard, options)?;
    Ok(row.status == status && row.said.as_slice() == said.as_bytes())
}

#[test]
fn a_mill_has_its_front(rt: HostRuntime) -> Result<(), Fail> {
    for row in fronts() {
        assert!(rt; is_said(rt.alloc(), row)?, "{}", row.0);
    }
    Ok(())
}

#[test]
fn options_are_heeded(rt: HostRuntime) -> Result<(), Fail> {
    for row in fronts_by_options() {
        assert!(rt; is_said(rt.alloc(), row)?, "{}{}", row.0, row.2);
    }
    Ok(())
}

// Order file, yard file, options, and how what is said begins: the number of nodes isn't fixed.
fn points() -> [(&'static str, &'static str, &'static str, &'static str); 8] {
    let both = "front 2\npoint 0 2\nnew 4 1\nnew 4 2\npoint 2 1\nnew 10 1 2\nnodes ";
    [
        (TWO, "", "", both),
        ("4 3 10 4 10 1 2 4 1 4 1", "", "", both),
        (
            TWO,
            "1 9",
            " --yard yard",
            "front 2\npoint 0 2\nnew 4 1\nnew 4 2\npoint 1 0\nold 1 1 2\nnodes ",
        ),
        (
            TWO,
            "1 8",
            " --yard yard",
            "front 1\npoint 0 0\nold 1 1 2\nnodes ",
        ),
        (TWO, "1 8 1 2 1", " --yard yard", both),
        (TWO, "", " --rounds 1 --seed 0", both),
        (TWO, "1 8 1 2 1", " --rounds 20 --yard yard", both),
        (
            FIVE_FIVES,
            "",
            "",
            "front 1\npoint 5 3\nnew 10 1 2\nnew 10 3 4\nnew 10 5\nnodes ",
        ),
    ]
}

// Whether the whole front was said, and it begins so.
fn begins(row: &Row, said: &str) -> bool {
    row.status == 0 && row.said.starts_with(said.as_bytes()) && row.said.ends_with(b"\ncomplete\n")
}

#[test]
fn a_front_has_its_points(rt: HostRuntime) -> Result<(), Fail> {
    for (orders, yard, options, said) in points() {
        let row = solved(rt.alloc(), orders, yard, options)?;
        assert!(rt; begins(&row, said), "{said}");
    }
    Ok(())
}

#[test]
fn a_search_needs_no_bare_split(rt: HostRuntime) -> Result<(), Fail> {
    let row = solved(rt.alloc(), FIVE_FIVES, "", "")?;
    assert!(rt; row.said.ends_with(b" bare 0\ncomplete\n"));
    Ok(())
}

// Order file, options, and the certificate.
fn certificates() -> [(&'static str, &'static str, &'static str); 3] {
    [
        (
            ONE,
            "",
            "slabfront 2\npoint 0 1\nnew 10 1 2\nleaf 1 0 0 0\ndone\nleaf 0 10 5 5\n",
        ),
        (
            NO_ORDERS,
            "",
            "slabfront 2\npoint 0 0\nleaf 1 0\ndone\nleaf 0 1\n",
        ),
        (THREE_FIVES, " --nodes 2", "slabfront 2\ncut\nopen\n"),
    ]
}

#[test]
fn a_certificate_is_stored(rt: HostRuntime) -> Result<(), Fail> {
    for (orders, options, stored) in certificates() {
        let row = solved(rt.alloc(), orders, "", options)?;
        assert!(rt; holds(&row, stored), "{stored}");
    }
    Ok(())
}

fn holds(row: &Row, stored: &str) -> bool {
    match &row.stored {
        Some(bytes) => bytes.as_slice() == stored.as_bytes(),
        None => false,
    }
}

// The one split shows a cover of half of each pair of orders.
#[test]
fn a_split_shows_its_cover(rt: HostRuntime) -> Result<(), Fail> {
    let row = solved(rt.alloc(), THREE_FIVES, "", "")?;
    for (line, count) in [
        ("pair ", 1),
        ("put ", 0),
        ("spread ", 1),
        ("spread 2", 1),
        ("cnew 1 10 1 2", 1),
        ("cnew 1 10 1 3", 1),
        ("cnew 1 10 2 3", 1),
        ("bare", 0),
        ("plain", 0),
    ] {
        assert!(rt; lines_of(&row, line) == count, "{line}");
    }
    Ok(())
}

// How many lines of the certificate are this one, or begin with it where it ends with a space.
fn lines_of(row: &Row, line: &str) -> usize {
    let Some(bytes) = &row.stored else {
        return 0;
    };
    let mut count = 0usize;
    for part in bytes.split(|byte| *byte == b'\n') {
        if part == line.as_bytes() || line.ends_with(' ') && part.starts_with(line.as_bytes()) {
            count = count.saturating_add(1);
        }
    }
    count
}

// The words, and what is said.
fn made_mills() -> [(&'static str, &'static str); 2] {
    [
        (
            "make 250 7",
            "made 250 5500\npoint 0 125\nnodes 2 bare 0\ncomplete\n",
        ),
        (
            "make 0 0",
            "made 0 0\npoint 0 0\nnodes 2 bare 0\ncomplete\n",
        ),
    ]
}

#[test]
fn a_mill_is_made(rt: HostRuntime) -> Result<(), Fail> {
    let files = Files {
        orders: b"",
        plan: b"",
        yard: b"",
    };
    for (words, said) in made_mills() {
        assert!(rt; only_says(rt.alloc(), words, files, 0, said)?, "{words}");
    }
    Ok(())
}
