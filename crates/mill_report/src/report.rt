// The report: each point with the slabs of its plan.
ghost use Rattle.std.specs.Prelude.{◌≡◌, OnOk, OnErr, length};
ghost use Rattle.std.specs.List.{flat_map};
ghost use Rattle.std.specs.Result.{is_err};
ghost use Rattle.slab_desk.specs.Causes.{HasCause};
ghost use Rattle.slab_desk.specs.Desk.{Steps, Says, WithPrefix};
ghost use Rattle.line_out.specs.Puts.{Puts};
ghost use Rattle.mill_report.specs.Reports.{front_text, point_text, report_text};

use crate::Word;
use crate::ending::{put_nodes, put_word};
use cert_write::{put_slabs, put_sums};
use line_out::{End, LineOut, Said};
use mill_model::{Head, Proved};
use slab_desk::{Desk, Failed};

/// Says the report of these points: how many there are, each with the slabs of its plan, the nodes opened and the bare ones
/// among them, and the last word; or a prefix of it where the outside fails. It takes no memory.
pub fn say_report<D: Desk>(
    head: &Head,
    opened: u64,
    bare: u64,
    word: Word,
    desk: &mut D,
) -> Result<(), Failed>
    ensures all { OnOk result (Steps (D.told desk.old) (D.told desk.new) (Says (report_text head.now opened bare word))) }
    ensures prefix { OnErr result (Steps (D.told desk.old) (D.told desk.new) (WithPrefix Says (report_text head.now opened bare word))) }
    ensures cause { HasCause (D.faults desk.old) (D.faults desk.new) result }
    ensures stopped { D.stopped desk.new ≡ is_err result }
    ensures named { D.named desk.new ≡ D.named desk.old }
{
    let mut out = LineOut::<Said>::new();
    put_report(&mut out, desk, head, opened, bare, word);
    out.finish(desk)
}

fn put_report<D, E: End<D>>(
    out: &mut LineOut<E>,
    desk: &mut D,
    head: &Head,
    opened: u64,
    bare: u64,
    word: Word,
)
    ensures { Puts E.sends (report_text head.now opened bare word) (out.old, E.seen desk.old) (out.new, E.seen desk.new) }
{
    put_count(out, desk, head.points().len());
    put_points(out, desk, head.points());
    put_nodes(out, desk, opened, bare);
    put_word(out, desk, word);
}

// How many points there are.
fn put_count<D, E: End<D>>(out: &mut LineOut<E>, desk: &mut D, count: usize)
    ensures { Puts E.sends (front_text count) (out.old, E.seen desk.old) (out.new, E.seen desk.new) }
{
    out.put(desk, b"front");
    out.number(desk, count as u64);
    out.end_line(desk);
}

fn put_points<D, E: End<D>>(out: &mut LineOut<E>, desk: &mut D, points: &[Proved])
    ensures { Puts E.sends (flat_map point_text points.now) (out.old, E.seen desk.old) (out.new, E.seen desk.new) }
{
    for point in points {
        put_point(out, desk, point);
    }
}

// A point's sums, and the slabs of its plan.
fn put_point<D, E: End<D>>(out: &mut LineOut<E>, desk: &mut D, point: &Proved)
    ensures { Puts E.sends (point_text point.now) (out.old, E.seen desk.old) (out.new, E.seen desk.new) }
{
    put_sums(out, desk, point.sums());
    put_slabs(out, desk, point.plan());
}
