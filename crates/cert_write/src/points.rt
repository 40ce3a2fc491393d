// The points of a certificate.
ghost use Rattle.std.specs.List.{flat_map};
ghost use Rattle.cert_text.specs.Lines.{point_lines};
ghost use Rattle.cert_text.specs.Texts.{lines_text};
ghost use Rattle.line_out.specs.Puts.{Puts};

use crate::slabs::{put_slabs, put_sums};
use crate::trees::put_tree;
use line_out::{End, LineOut};
use mill_model::{Proved, Version};

// The lines of these points.
pub fn put_points<D, E: End<D>>(
    out: &mut LineOut<E>,
    desk: &mut D,
    version: Version,
    points: &[Proved],
)
    ensures { Puts E.sends (lines_text (flat_map (point_lines version) points.now)) (out.old, E.seen desk.old) (out.new, E.seen desk.new) }
{
    for point in points {
        put_point(out, desk, version, point);
    }
}

// A point's sums, its slabs and its tree.
fn put_point<D, E: End<D>>(out: &mut LineOut<E>, desk: &mut D, version: Version, point: &Proved)
    ensures { Puts E.sends (lines_text (point_lines version point.now)) (out.old, E.seen desk.old) (out.new, E.seen desk.new) }
{
    put_sums(out, desk, point.sums());
    put_slabs(out, desk, point.plan());
    put_tree(out, desk, version, point.steps());
}
