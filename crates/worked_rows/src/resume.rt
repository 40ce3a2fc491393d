// Searches that go on from a cut.
use crate::desks::Files;
use crate::row::{Row, storing_row};
use std::alloc::{AllocError, Global};
use std::test::Fail;

const TWO: &str = "2 4 10 1 2 4 1 4 1";

const THREE_FIVES: &str = "1 10 1 3 5 1 5 1 5 1";

// A cut of the two orders' front.
pub(crate) const CUT: &str = "slabfront 1\npoint 0 2\nnew 4 1\nnew 4 2\nleaf 1 0 0 0\ncut\nopen\n";

const NO_POINT: &str = "slabfront 1\ncut\nopen\n";

// A cut after the three orders' only point, whose tree splits.
const ONE_POINT: &str =
    "slabfront 1\npoint 5 2\nnew 10 1 2\nnew 10 3\npair 1 2\nleaf 1 0 0 0 5\nleaf 1 0 5 5 -5\ncut\nopen\n";

// A whole certificate: where a cut is wanted, `done` can't stand.
const WHOLE: &str =
    "slabfront 1\npoint 0 2\nnew 4 1\nnew 4 2\nleaf 1 0 0 0\npoint 2 1\nnew 10 1 2\nleaf 1 2 2 2\ndone\nleaf 0 1 1 0\n";

// The run of `resume orders plan`, this name of the certificate, and these options. The cut stands in the file `plan`.
fn resumed(
    alloc: Global,
    orders: &str,
    cut: &str,
    cert: &str,
    options: &str,
) -> Result<Row, AllocError> {
    let words = format!(in alloc; "resume orders plan {cert}{options}")?;
    let files = Files {
        orders: orders.as_bytes(),
        plan: cut.as_bytes(),
        yard: b"",
    };
    storing_row(alloc, words.as_str(), files, cert)
}

// Order file, cut, options, status, and what is said.
type Resumed = (&'static str, &'static str, &'static str, u8, &'static str);

fn resumed_searches() -> [Resumed; 5] {
    [
        (
            THREE_FIVES,
            ONE_POINT,
            " --nodes 1",
            0,
            "front 1\npoint 5 2\nnew 10 1 2\nnew 10 3\nnodes 1 bare 0\ncomplete\n",
        ),
        (
            THREE_FIVES,
            ONE_POINT,
            " --seed 1 --rounds 20 --nodes 1",
            0,
            "front 1\npoint 5 2\nnew 10 1 2\nnew 10 3\nnodes 1 bare 0\ncomplete\n",
        ),
        (
            THREE_FIVES,
            NO_POINT,
            " --nodes 2",
            3,
            "front 0\nnodes 1 bare 0\nbudget\n",
        ),
        (TWO, WHOLE, "", 7, "certificate line 9 expect\n"),
        (TWO, "", "", 7, "certificate line 1 end\n"),
    ]
}

#[test]
fn a_search_goes_on_from_a_cut(rt: HostRuntime) -> Result<(), Fail> {
    for (orders, cut, options, status, said) in resumed_searches() {
        let row = resumed(rt.alloc(), orders, cut, "cert", options)?;
        let holds = row.status == status && row.said.as_slice() == said.as_bytes();
        assert!(rt; holds, "{cut}");
    }
    Ok(())
}

// A certificate may be stored in its cut's own file.
#[test]
fn a_cut_begins_the_front(rt: HostRuntime) -> Result<(), Fail> {
    let said = "front 2\npoint 0 2\nnew 4 1\nnew 4 2\npoint 2 1\nnew 10 1 2\nnodes ";
    let stored = "slabfront 2\npoint 0 2\nnew 4 1\nnew 4 2\nleaf 1 0 0 0\npoint 2 1\nnew 10 1 2\n";
    for cert in ["cert", "plan"] {
        let row = resumed(rt.alloc(), TWO, CUT, cert, "")?;
        let is_said = row.status == 0 && row.said.starts_with(said.as_bytes());
        assert!(rt; is_said && begins(&row, stored), "{cert}");
    }
    Ok(())
}

// The certificate is there, and begins so.
fn begins(row: &Row, stored: &str) -> bool {
    match &row.stored {
        Some(bytes) => bytes.starts_with(stored.as_bytes()),
        None => false,
    }
}

// A question that is cut off again leaves the same points.
#[test]
fn a_cut_is_stored_again(rt: HostRuntime) -> Result<(), Fail> {
    let row = resumed(rt.alloc(), THREE_FIVES, NO_POINT, "cert", " --nodes 2")?;
    assert!(rt; begins(&row, "slabfront 2\ncut\nopen\n"));
    Ok(())
}
