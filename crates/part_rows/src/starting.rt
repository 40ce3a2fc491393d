//! First-fit plans, plans after rounds by large neighbourhoods, and a mill that is made from a number.
use crate::mills::{NO_YARD, THREE_FIVES, TWO_FOURS, mill_of};
use mill_model::{Kind, Starter};
use slab_lns::Lns;
use slab_start::{FirstFit, make_mill};
use std::alloc::Global;
use std::test::Fail;

// The slabs, and the slab of each order.
type Start = Option<(&'static [Kind], &'static [u16])>;

fn starts_with(
    alloc: Global,
    orders: &str,
    yard: &str,
    count: Option<i64>,
    start: Start,
) -> Result<bool, Fail> {
    let mill = mill_of(alloc, orders, yard, 2)?;
    let plan = FirstFit::new().start(alloc, &mill, count)?;
    Ok(match (&plan, start) {
        (Some(plan), Some((kinds, place))) => plan.kinds() == kinds && plan.place() == place,
        (None, None) => true,
        _ => false,
    })
}

// Order file, yard file, the most new slabs, and the first-fit plan.
type Row = (&'static str, &'static str, Option<i64>, Start);

fn rows() -> [Row; 6] {
    const NEW: Kind = Kind::New(10);
    [
        (TWO_FOURS, NO_YARD, None, Some((&[NEW], &[0, 0]))),
        (THREE_FIVES, NO_YARD, None, Some((&[NEW, NEW], &[0, 0, 1]))),
        (
            THREE_FIVES,
            "1 8",
            Some(1),
            Some((&[NEW, Kind::Old(0)], &[0, 0, 1])),
        ),
        (THREE_FIVES, NO_YARD, Some(1), None),
        (THREE_FIVES, NO_YARD, Some(0), None),
        (THREE_FIVES, NO_YARD, Some(-1), None),
    ]
}

#[test]
fn a_question_starts_by_first_fit(rt: HostRuntime) -> Result<(), Fail> {
    for (orders, yard, count, start) in rows() {
        let holds = starts_with(rt.alloc(), orders, yard, count, start)?;
        assert!(rt; holds, "{orders} at {count:?}");
    }
    Ok(())
}

#[test]
fn a_mill_is_made(rt: HostRuntime) -> Result<(), Fail> {
    // 1664525 + 1013904223 = 1015568748, and 1015568748 div 65536 = 15496 = 360 * 43 + 16
    let mill = make_mill(rt.alloc(), 3, 1)?;
    let wanted = [(17, 1), (27, 2), (44, 3)];
    assert!(rt; mill.orders().len() == wanted.len());
    for (order, (weight, colour)) in mill.orders().iter().zip(&wanted) {
        assert!(rt;
            order.weight == *weight && order.colour == *colour,
            "{weight}"
        );
    }
    Ok(())
}

// Order file, yard file, colour limit, the most new slabs, rounds by the numbers of seed 0, and the plan after them.
type RoundsRow = (&'static str, &'static str, u16, Option<i64>, u32, Start);

fn rounds_rows() -> [RoundsRow; 9] {
    const NEW_4: Kind = Kind::New(4);
    const NEW_5: Kind = Kind::New(5);
    const NEW_10: Kind = Kind::New(10);
    // Two orders of different colours, which would fill a slab.
    const TWO_COLOURS: &str = "2 4 8 2 2 4 1 4 2";
    // Four orders of different colours, which would fill a slab.
    const FOUR_COLOURS: &str = "3 4 12 16 4 4 4 1 4 2 4 3 4 4";
    // Two orders of weight 4, which lose 2 on new slabs and nothing on a surplus slab of size 8.
    const FOURS_ON_FIVES: &str = "1 5 1 2 4 1 4 1";
    [
        (TWO_FOURS, NO_YARD, 2, None, 0, Some((&[NEW_10], &[0, 0]))),
        // Two draws of the one slab; the third number has the one way of a new slab, and the fourth, 43,769, takes the second
        // of two.
        (
            TWO_FOURS,
            NO_YARD,
            2,
            None,
            1,
            Some((&[NEW_4, NEW_4], &[0, 1])),
        ),
        (
            TWO_FOURS,
            NO_YARD,
            2,
            Some(1),
            1,
            Some((&[NEW_10], &[0, 0])),
        ),
        (TWO_FOURS, NO_YARD, 2, Some(0), 1, None),
        (TWO_FOURS, NO_YARD, 2, Some(-1), 1, None),
        (
            TWO_COLOURS,
            NO_YARD,
            1,
            None,
            20,
            Some((&[NEW_4, NEW_4], &[0, 1])),
        ),
        (
            FOURS_ON_FIVES,
            "1 8 1 2 1",
            2,
            None,
            20,
            Some((&[NEW_5, NEW_5], &[0, 1])),
        ),
        (
            FOURS_ON_FIVES,
            "1 8",
            2,
            None,
            20,
            Some((&[Kind::Old(0)], &[0, 0])),
        ),
        (
            FOUR_COLOURS,
            NO_YARD,
            3,
            None,
            20,
            Some((&[Kind::New(12), NEW_4], &[0, 1, 0, 0])),
        ),
    ]
}

fn ends_with(alloc: Global, row: RoundsRow) -> Result<bool, Fail> {
    let (orders, yard, colours, count, rounds, end) = row;
    let mill = mill_of(alloc, orders, yard, colours)?;
    let plan = Lns::new(FirstFit::new(), 0, rounds).start(alloc, &mill, count)?;
    Ok(match (&plan, end) {
        (Some(plan), Some((kinds, place))) => plan.kinds() == kinds && plan.place() == place,
        (None, None) => true,
        _ => false,
    })
}

#[test]
fn rounds_place_orders_anew(rt: HostRuntime) -> Result<(), Fail> {
    for row in rounds_rows() {
        let (orders, yard, colours, count, rounds, _) = row;
        let holds = ends_with(rt.alloc(), row)?;
        assert!(rt;
            holds,
            "{orders}, {yard}, {colours} colours, {rounds} rounds at {count:?}"
        );
    }
    Ok(())
}
