//! Scripts that are read and done, line by line.
ghost use Rattle.std.specs.Prelude.{◌≤◌, length, IfOk};
ghost use Rattle.mill_model.specs.Mill.{most_orders};
ghost use Rattle.session_script.specs.Limits.{IsFit};

use crate::SessionMill;
use mill_model::Order;
use session_script::{Line, LineError, Lines, Why, read_line};
use std::alloc::Global;
use std::test::Fail;

fn next_line(alloc: Global, lines: &mut Lines<'_>, orders: u16) -> Result<Line, Fail>
    requires { orders ≤ most_orders }
    ensures { IfOk result (IsFit orders) }
{
    if lines.number() == u64::MAX {
        return Err(Fail::from("too many lines"));
    }
    match lines.next(alloc, orders) {
        Ok(Some(line)) => Ok(line),
        _ => Err(Fail::from("no line")),
    }
}

fn begun(alloc: Global, first: Line) -> Result<SessionMill, Fail>
    requires { IsFit 0 first }
{
    match first {
        Line::Sizes(sizes) => Ok(SessionMill::new(alloc, sizes.into_sizes())),
        _ => Err(Fail::from("no sizes")),
    }
}

fn edit(mill: &mut SessionMill, line: Line) -> Result<(), Fail>
    requires { IsFit (length mill.old.orders) line }
{
    match line {
        Line::Add(order) => mill.add(order)?,
        Line::Remove(order) => mill.remove(order),
        Line::Yard(sizes) => mill.put_yard(sizes.into_sizes()),
        _ => return Err(Fail::from("no edit")),
    }
    Ok(())
}

#[test]
fn orders_come_and_go(rt: HostRuntime) -> Result<(), Fail> {
    let alloc = rt.alloc();
    let script = b"sizes 4 10\nadd 4 1\nadd 5 2\nyard 8\ndrop 1\nfront\n";
    let mut lines = Lines::new(script);
    let first = next_line(alloc, &mut lines, 0)?;
    let mut mill = begun(alloc, first)?;
    for _ in 0..4 {
        let line = next_line(alloc, &mut lines, mill.order_count())?;
        edit(&mut mill, line)?;
    }
    let last = next_line(alloc, &mut lines, mill.order_count())?;
    assert!(rt; matches!(last, Line::Front) && lines.number() == 7);
    let stands = mill.mill(alloc)?;
    let left = [Order {
        weight: 5,
        colour: 2,
    }];
    assert!(rt; stands.sizes() == [4, 10].as_slice() && stands.yard() == [8].as_slice());
    assert!(rt; stands.orders() == left.as_slice() && stands.colours() == 250);
    Ok(())
}

// What a later line can't be where one order stands, and one at 250 orders.
#[test]
fn bad_lines_say_why(rt: HostRuntime) {
    let rows: [(&str, u16, Why); 6] = [
        ("front ", 1, Why::Spelling),
        ("yard 04", 1, Why::Spelling),
        ("sizes 0", 1, Why::Expect),
        ("drop 2", 1, Why::Range),
        ("add 0 1", 250, Why::Range),
        ("add 1 250", 250, Why::Full),
    ];
    for (text, orders, why) in rows {
        let read = read_line(rt.alloc(), text.as_bytes(), false, orders);
        assert!(rt;
            matches!(read, Err(LineError::Bad(said)) if said == why),
            "{text}"
        );
    }
}
