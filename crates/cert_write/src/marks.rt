// The marks of a tree's questions.
ghost use Rattle.std.specs.Prelude.{map, ◌∷◌, []};
ghost use Rattle.cert_view.specs.Text.{line_text};
ghost use Rattle.cert_view.specs.declared.line.Line.TheVariants.{Spread as SpreadLine};
ghost use Rattle.cert_text.specs.Lines.{mark_lines, first_mark_lines, share_line, share_line_on};
ghost use Rattle.cert_text.specs.Texts.{lines_text};
ghost use Rattle.line_out.specs.Puts.{Puts};

use crate::numbers::{put_index, put_orders};
use line_out::{End, LineOut};
use mill_model::{Kind, Mark, Share, Shown, Version};

// The lines of the first mark that is left.
pub fn put_first_mark<D, E: End<D>>(
    out: &mut LineOut<E>,
    desk: &mut D,
    version: Version,
    left: &[Mark],
)
    ensures { Puts E.sends (lines_text (first_mark_lines version left.now)) (out.old, E.seen desk.old) (out.new, E.seen desk.new) }
{
    if let [mark, ..] = left {
        put_mark(out, desk, version, mark);
    }
}

// The lines of a mark. Version 1 has none.
fn put_mark<D, E: End<D>>(out: &mut LineOut<E>, desk: &mut D, version: Version, mark: &Mark)
    ensures { Puts E.sends (lines_text (mark_lines version mark.now)) (out.old, E.seen desk.old) (out.new, E.seen desk.new) }
{
    if version == Version::Two {
        match mark {
            Mark::Spread(shown) => put_spread(out, desk, shown),
            Mark::Bare => out.put(desk, b"bare\n"),
            Mark::Plain => out.put(desk, b"plain\n"),
        }
    }
}

// The lines of a cover.
fn put_spread<D, E: End<D>>(out: &mut LineOut<E>, desk: &mut D, shown: &Shown)
    ensures { Puts E.sends (lines_text (SpreadLine (shown.now.d ∷ []) ∷ map share_line shown.now.shares)) (out.old, E.seen desk.old) (out.new, E.seen desk.new) }
{
    out.put(desk, b"spread");
    out.signed_number(desk, shown.d());
    out.end_line(desk);
    put_shares(out, desk, shown.shares());
}

fn put_shares<D, E: End<D>>(out: &mut LineOut<E>, desk: &mut D, shares: &[Share])
    ensures { Puts E.sends (lines_text (map share_line shares.now)) (out.old, E.seen desk.old) (out.new, E.seen desk.new) }
{
    for share in shares {
        put_share(out, desk, share);
    }
}

fn put_share<D, E: End<D>>(out: &mut LineOut<E>, desk: &mut D, share: &Share)
    ensures { Puts E.sends (lines_text (share_line share.now ∷ [])) (out.old, E.seen desk.old) (out.new, E.seen desk.new) }
{
    put_share_kind(out, desk, share.times(), share.kind());
    put_orders(out, desk, share.orders());
    out.end_line(desk);
}

// How the line of a share begins.
fn put_share_kind<D, E: End<D>>(out: &mut LineOut<E>, desk: &mut D, times: i64, kind: Kind)
    ensures { Puts E.sends (line_text (share_line_on times kind [])) (out.old, E.seen desk.old) (out.new, E.seen desk.new) }
{
    match kind {
        Kind::New(size) => {
            out.put(desk, b"cnew");
            out.signed_number(desk, times);
            out.number(desk, u64::from(size));
        }
        Kind::Old(slab) => {
            out.put(desk, b"cold");
            out.signed_number(desk, times);
            put_index(out, desk, slab);
        }
    }
}
