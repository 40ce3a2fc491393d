// The lines of a point without its tree: its sums, and the slabs of its plan.
ghost use Rattle.std.specs.Prelude.{map, ◌∷◌, [], ◌<◌, length};
ghost use Rattle.mill_model.specs.Plans.{slab};
ghost use Rattle.cert_view.specs.Text.{line_text};
ghost use Rattle.cert_text.specs.Lines.{sums_line, slab_line, slab_line_on, columns_of};
ghost use Rattle.cert_text.specs.Texts.{lines_text};
ghost use Rattle.line_out.specs.Puts.{Puts};

use crate::numbers::{put_index, put_placed};
use line_out::{End, LineOut};
use mill_model::{Kind, Plan, Sums};

/// Puts the line of a point: its loss and its count.
pub fn put_sums<D, E: End<D>>(out: &mut LineOut<E>, desk: &mut D, sums: Sums)
    ensures { Puts E.sends (lines_text (sums_line sums ∷ [])) (out.old, E.seen desk.old) (out.new, E.seen desk.new) }
{
    out.put(desk, b"point");
    out.number(desk, u64::from(sums.loss));
    out.number(desk, u64::from(sums.count));
    out.end_line(desk);
}

/// Puts the lines of a plan: each slab by its size, where it is new, or its number in the yard, with the orders on it. Where
/// the slabs are numbered by their least order, so their lines stand.
pub fn put_slabs<D, E: End<D>>(out: &mut LineOut<E>, desk: &mut D, plan: &Plan)
    ensures { Puts E.sends (lines_text (map slab_line (columns_of plan.now))) (out.old, E.seen desk.old) (out.new, E.seen desk.new) }
{
    for k in 0..plan.kinds().len() {
        put_slab(out, desk, plan, k);
    }
}

fn put_slab<D, E: End<D>>(out: &mut LineOut<E>, desk: &mut D, plan: &Plan, k: usize)
    requires { k < length plan.now.kinds }
    ensures { Puts E.sends (lines_text (slab_line (slab plan.now k) ∷ [])) (out.old, E.seen desk.old) (out.new, E.seen desk.new) }
{
    put_kind(out, desk, plan.kinds()[k]);
    put_placed(out, desk, plan.place(), k);
    out.end_line(desk);
}

// How the line of a slab begins.
fn put_kind<D, E: End<D>>(out: &mut LineOut<E>, desk: &mut D, kind: Kind)
    ensures { Puts E.sends (line_text (slab_line_on kind [])) (out.old, E.seen desk.old) (out.new, E.seen desk.new) }
{
    match kind {
        Kind::New(size) => {
            out.put(desk, b"new");
            out.number(desk, u64::from(size));
        }
        Kind::Old(slab) => {
            out.put(desk, b"old");
            put_index(out, desk, slab);
        }
    }
}
