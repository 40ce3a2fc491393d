// The lines of a certificate, in order.
ghost use Rattle.std.specs.Prelude.{◌∷◌, []};
ghost use Rattle.cert_text.specs.Certificates.Ending.{Whole as WholeEnding, Cut as CutEnding};
ghost use Rattle.cert_text.specs.Lines.{header_line, ending_lines};
ghost use Rattle.cert_text.specs.Texts.{certificate_text, lines_text};
ghost use Rattle.line_out.specs.Puts.{Puts};
ghost use Rattle.cert_write.specs.Parts.{certificate_of};

use crate::Stored;
use crate::points::put_points;
use crate::questions::put_outline;
use crate::trees::put_tree;
use line_out::{End, LineOut};
use mill_model::{OpenTree, Steps, Version};

pub fn put_certificate<D, E: End<D>>(
    out: &mut LineOut<E>,
    desk: &mut D,
    version: Version,
    what: Stored<'_>,
)
    ensures { Puts E.sends (certificate_text (certificate_of version what.entry)) (out.old, E.seen desk.old) (out.new, E.seen desk.new) }
{
    put_header(out, desk, version);
    match what {
        Stored::Whole(front) => {
            put_points(out, desk, version, front.head().points());
            put_last(out, desk, version, front.last());
        }
        Stored::NoPlan(last) => put_last(out, desk, version, last),
        Stored::Cut(head, open_tree) => {
            put_points(out, desk, version, head.points());
            put_cut(out, desk, open_tree);
        }
    }
}

fn put_header<D, E: End<D>>(out: &mut LineOut<E>, desk: &mut D, version: Version)
    ensures { Puts E.sends (lines_text (header_line version ∷ [])) (out.old, E.seen desk.old) (out.new, E.seen desk.new) }
{
    match version {
        Version::One => out.put(desk, b"slabfront 1\n"),
        Version::Two => out.put(desk, b"slabfront 2\n"),
    }
}

// The end of a whole certificate.
fn put_last<D, E: End<D>>(out: &mut LineOut<E>, desk: &mut D, version: Version, last: &Steps)
    ensures { Puts E.sends (lines_text (ending_lines version (WholeEnding last.now))) (out.old, E.seen desk.old) (out.new, E.seen desk.new) }
{
    out.put(desk, b"done\n");
    put_tree(out, desk, version, last);
}

// The end of one that was cut off.
fn put_cut<D, E: End<D>>(out: &mut LineOut<E>, desk: &mut D, open_tree: &OpenTree)
    ensures { Puts E.sends (lines_text (ending_lines Version.Two (CutEnding open_tree.now))) (out.old, E.seen desk.old) (out.new, E.seen desk.new) }
{
    out.put(desk, b"cut\n");
    put_outline(out, desk, open_tree.list());
}
