// The summary: each point without its plan.
ghost use Rattle.std.specs.Prelude.{◌≡◌, OnOk, OnErr};
ghost use Rattle.std.specs.List.{flat_map};
ghost use Rattle.std.specs.Result.{is_err};
ghost use Rattle.slab_desk.specs.Causes.{HasCause};
ghost use Rattle.slab_desk.specs.Desk.{Steps, Says, WithPrefix};
ghost use Rattle.mill_model.specs.Plain.{total_weight};
ghost use Rattle.line_out.specs.Puts.{Puts};
ghost use Rattle.mill_report.specs.Reports.{made_text, sums_text, summary_text};

use crate::Word;
use crate::ending::{put_nodes, put_word};
use cert_write::put_sums;
use line_out::{End, LineOut, Said};
use mill_model::{Head, MOST_ORDERS, Mill, Proved};
use slab_desk::{Desk, Failed};

/// Says the summary of a mill that was made, and of these points: the mill's number of orders and their weight, the sums of
/// each point, the nodes opened and the bare ones among them, and the last word; or a prefix of it where the outside fails.
/// It takes no memory.
pub fn say_summary<D: Desk>(
    mill: &Mill,
    head: &Head,
    opened: u64,
    bare: u64,
    word: Word,
    desk: &mut D,
) -> Result<(), Failed>
    ensures all { OnOk result (Steps (D.told desk.old) (D.told desk.new) (Says (summary_text mill.now head.now opened bare word))) }
    ensures prefix { OnErr result (Steps (D.told desk.old) (D.told desk.new) (WithPrefix Says (summary_text mill.now head.now opened bare word))) }
    ensures cause { HasCause (D.faults desk.old) (D.faults desk.new) result }
    ensures stopped { D.stopped desk.new ≡ is_err result }
    ensures named { D.named desk.new ≡ D.named desk.old }
{
    let mut out = LineOut::<Said>::new();
    put_summary(&mut out, desk, mill, head, opened, bare, word);
    out.finish(desk)
}

fn put_summary<D, E: End<D>>(
    out: &mut LineOut<E>,
    desk: &mut D,
    mill: &Mill,
    head: &Head,
    opened: u64,
    bare: u64,
    word: Word,
)
    ensures { Puts E.sends (summary_text mill.now head.now opened bare word) (out.old, E.seen desk.old) (out.new, E.seen desk.new) }
{
    put_made(out, desk, mill);
    put_points(out, desk, head.points());
    put_nodes(out, desk, opened, bare);
    put_word(out, desk, word);
}

// How many orders there are, and what they weigh together.
fn put_made<D, E: End<D>>(out: &mut LineOut<E>, desk: &mut D, mill: &Mill)
    ensures { Puts E.sends (made_text mill.now) (out.old, E.seen desk.old) (out.new, E.seen desk.new) }
{
    out.put(desk, b"made");
    out.number(desk, mill.orders().len() as u64);
    out.number(desk, weight(mill));
    out.end_line(desk);
}

// What the orders weigh together.
fn weight(mill: &Mill) -> u64
    ensures { result ≡ total_weight mill.now }
{
    let orders = mill.orders();
    prove!(orders.len() <= MOST_ORDERS as usize);
    let mut sum = 0u64;
    for order in orders {
        sum += u64::from(order.weight);
    }
    sum
}

// The sums of each point.
fn put_points<D, E: End<D>>(out: &mut LineOut<E>, desk: &mut D, points: &[Proved])
    ensures { Puts E.sends (flat_map sums_text points.now) (out.old, E.seen desk.old) (out.new, E.seen desk.new) }
{
    for point in points {
        put_sums(out, desk, point.sums());
    }
}
