//! Which slabs may be opened.

ghost use Rattle.std.specs.Prelude.{◌≡◌};
ghost use Rattle.std.specs.List.{count_by, list_any};
ghost use Rattle.mill_model.specs.Columns.{is_old as is_surplus};
ghost use Rattle.mill_model.specs.Plans.{is_new};
ghost use Rattle.slab_filling.specs.Placing.{is_below as is_below_limit, kinds_of};

use crate::slab::Slab;
use mill_model::Kind;

/// Whether a surplus slab is one of these.
pub fn is_open(slabs: &[Slab], surplus: u16) -> bool
    ensures { result ≡ list_any (is_surplus surplus) (kinds_of slabs.now) }
{
    for slab in slabs {
        if is_old(slab.kind(), surplus) {
            return true;
        }
    }
    false
}

fn is_old(kind: Kind, surplus: u16) -> bool
    ensures { result ≡ is_surplus surplus kind }
{
    match kind {
        Kind::New(_) => false,
        Kind::Old(other) => other == surplus,
    }
}

/// How many of the slabs are new.
pub fn new_slabs(slabs: &[Slab]) -> usize
    ensures { result ≡ count_by is_new (kinds_of slabs.now) }
{
    let mut count = 0;
    for slab in slabs {
        match slab.kind() {
            Kind::New(_) => count += 1,
            Kind::Old(_) => {}
        }
    }
    count
}

/// Whether there may be one new slab more than so many: where there is no limit, or one above the count.
pub fn is_below(count: usize, limit: Option<i64>) -> bool
    ensures { result ≡ is_below_limit count limit }
{
    match limit {
        None => true,
        Some(limit) => limit >= 0 && (count as u64) < limit as u64,
    }
}
