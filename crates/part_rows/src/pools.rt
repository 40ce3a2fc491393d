//! A pool of two columns.
ghost use Rattle.std.specs.Prelude.{◌≡◌, [], ◌∷◌, IfOk};
ghost use Rattle.mill_model.specs.Columns.{IsLegalColumn, column_of};

use mill_model::{Kind, Mill, Order};
use slab_columns::{AddError, ColId, Fulls, Pool};
use std::alloc::{AllocError, Global};
use std::test::Fail;

// A mill that casts slabs of 4 and of 10, with two orders of weight 4 and one colour.
fn mill_of_two_orders(alloc: Global) -> Result<Mill, AllocError>
    ensures { IfOk result (λ mill. mill ≡ record { sizes = 4 ∷ 10 ∷ []; colours = 1; colour_limit = 2; orders = record { weight = 4; colour = 1 } ∷ record { weight = 4; colour = 1 } ∷ []; yard = []; bars = [] }) }
{
    let order = Order {
        weight: 4,
        colour: 1,
    };
    let sizes = vec![in alloc; 4, 10]?;
    let orders = vec![in alloc; order, order]?;
    Ok(Mill::new(sizes, 1, orders))
}

// The numbers of three columns, of which the first two are the same, and how many columns there are after these two. The third
// is noted as basic twice, after the first.
fn add_three(
    alloc: Global,
    pool: &mut Pool,
    fulls: &mut Fulls,
) -> Result<([ColId; 3], usize), AddError>
    requires both { IsLegalColumn pool.old.mill (column_of (Kind.New 10) (0 ∷ 1 ∷ [])) }
    requires second { IsLegalColumn pool.old.mill (column_of (Kind.New 4) (1 ∷ [])) }
{
    let both = [0, 1];
    let first = pool.add(alloc, Kind::New(10), &both, fulls)?;
    pool.note_basic(&[first]);
    let again = pool.add(alloc, Kind::New(10), &both, fulls)?;
    let length = pool.len();
    let other = pool.add(alloc, Kind::New(4), &[1], fulls)?;
    pool.note_basic(&[other]);
    pool.note_basic(&[other]);
    Ok(([first, again, other], length))
}

// Whether the pool finds this column and lends it.
fn has(pool: &Pool, kind: Kind, orders: &[u16]) -> bool {
    match pool.find(kind, orders) {
        Some(id) => {
            let column = pool.column(id);
            column.kind == kind && column.orders == orders
        }
        None => false,
    }
}

#[test]
fn columns_keep_their_numbers(rt: HostRuntime) -> Result<(), Fail> {
    let alloc = rt.alloc();
    let mill = mill_of_two_orders(alloc)?;
    let mut pool = Pool::new(alloc, &mill)?;
    let mut fulls = Fulls::new();
    let ([first, again, other], length) = add_three(alloc, &mut pool, &mut fulls)?;
    assert!(rt; first == ColId(0) && again == ColId(0) && length == 1 && other == ColId(1));
    assert!(rt; pool.len() == 2 && fulls.count() == 0);
    assert!(rt; pool.recent() == [ColId(1), ColId(0)].as_slice());
    assert!(rt; has(&pool, Kind::New(10), &[0, 1]) && has(&pool, Kind::New(4), &[1]));
    assert!(rt; !has(&pool, Kind::New(10), &[1]));
    pool.restart();
    assert!(rt; pool.is_empty() && !has(&pool, Kind::New(10), &[0, 1]));
    assert!(rt; pool.recent().is_empty());
    Ok(())
}
