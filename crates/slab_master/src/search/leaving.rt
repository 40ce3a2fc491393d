//! The choice of the row that leaves: the one that bounds the entering column most.

use crate::check::term;
use crate::search::basic::Basic;
use crate::search::whole_row::WholeRow;
use std::cmp::Ordering;

// A row that may leave the basis. The entering column can grow to `right / cell`.
#[derive(Clone, Copy)]
pub(crate) struct Leaver {
    pub(crate) row: usize,

    // The right side over the row's denominator.
    pub(crate) right: i64,

    // The entering column's cell over it, above 0.
    cell: i64,

    // How many numbers of the row aren't 0, where that counts.
    filled: usize,

    // What is basic in the row.
    basic: Basic,
}

impl Leaver {
    // How far the two let the entering column grow, compared by products.
    fn compare(&self, other: &Leaver) -> Ordering {
        term(self.right, other.cell).cmp(&term(other.right, self.cell))
    }

    // Whether this row leaves before the best one so far: by its ratio, then by how few of its numbers are filled, so that the
    // rows stay sparse, then by what is basic.
    fn leaves_before(&self, best: &Leaver) -> bool {
        match self.compare(best) {
            Ordering::Less => true,
            Ordering::Greater => false,
            Ordering::Equal if self.filled != best.filled => self.filled < best.filled,
            Ordering::Equal => self.basic < best.basic,
        }
    }
}

// A row with its cell in the entering column, if it bounds that column. An artificial variable that has to stay 0 bounds it also
// from above.
fn candidate(row: usize, right: i64, cell: i64, basic: Basic, pinned: bool) -> Option<Leaver> {
    let turned = cell < 0 && pinned && basic == Basic::Artificial;
    if cell <= 0 && !turned {
        return None;
    }
    Some(Leaver {
        row,
        right: if turned { right.wrapping_neg() } else { right },
        cell: if turned { cell.wrapping_neg() } else { cell },
        filled: 0,
        basic,
    })
}

// The better of the best so far and a candidate. Where the search is `stuck`, filled numbers don't count.
fn better(best: Option<Leaver>, candidate: Leaver, cells: &WholeRow, stuck: bool) -> Leaver {
    let mut candidate = candidate;
    if let Some(best) = best {
        if candidate.compare(&best) == Ordering::Greater {
            return best;
        }
    }
    if !stuck {
        candidate.filled = cells.count_filled();
    }
    match best {
        Some(best) if !candidate.leaves_before(&best) => best,
        _ => candidate,
    }
}

// The row that leaves, if one bounds the entering column. Artificial variables that are `pinned` stay 0. Where the search is
// `stuck`, filled numbers don't count.
pub(crate) fn leaving_row(
    rows: &[WholeRow],
    basis: &[Basic],
    direction: &[i64],
    pinned: bool,
    stuck: bool,
) -> Option<Leaver> {
    let mut best = None;
    for (row, cells) in rows.iter().enumerate() {
        let cell = direction.get(row).copied().unwrap_or(0);
        let basic = *basis.get(row).unwrap_or(&Basic::Artificial);
        if let Some(found) = candidate(row, cells.right(), cell, basic, pinned) {
            best = Some(better(best, found, cells, stuck));
        }
    }
    best
}
