//! What follows from decisions about three orders and one surplus slab.
ghost use Rattle.std.specs.Prelude.{◌≡◌, ◌↔◌, IsTrue, IfOk};
ghost use Rattle.mill_model.specs.Decisions.{IsAskAmong};

use mill_model::{Ask, Kind};
use slab_decide::{Clash, Decisions};
use std::alloc::{AllocError, Global};
use std::test::Fail;

const ORDERS: u16 = 3;

const SLABS: u16 = 1;

// Whether the orders and the slab are there.
fn is_among(ask: Ask) -> bool
    ensures { IsTrue result ↔ IsAskAmong 3 1 ask }
{
    match ask {
        Ask::Pair(i, j) => i < j && j < ORDERS,
        Ask::Put(o, s) => o < ORDERS && s < SLABS,
    }
}

// Whether the answer comes to this, where the orders and the slab are there.
fn decides(decisions: &mut Decisions, ask: Ask, yes: bool, wanted: Result<(), Clash>) -> bool
    requires orders { decisions.old.orders ≡ 3 }
    requires yard { decisions.old.yard ≡ 1 }
    ensures orders { decisions.new.orders ≡ 3 }
    ensures yard { decisions.new.yard ≡ 1 }
{
    is_among(ask) && decisions.decide(ask, yes) == wanted
}

// Whether so much follows, and this is the first that doesn't.
fn stand(decisions: &Decisions, ask: Ask, follows: Option<bool>, first: Option<Ask>) -> bool
    requires orders { decisions.now.orders ≡ 3 }
    requires yard { decisions.now.yard ≡ 1 }
{
    is_among(ask) && decisions.follows(ask) == follows && decisions.first_open() == first
}

// Whether the first two orders may lie together on a new slab, the first alone, and the last, and whether that one may lie on the
// surplus slab.
fn allowed(decisions: &Decisions) -> (bool, bool, bool, bool)
    requires { decisions.now.orders ≡ 3 }
{
    const NEW: Kind = Kind::New(7);
    (
        decisions.allows(NEW, &[0, 1]),
        decisions.allows(NEW, &[0]),
        decisions.allows(NEW, &[2]),
        decisions.allows(Kind::Old(0), &[2]),
    )
}

#[test]
fn three_orders_are_decided(rt: HostRuntime) -> Result<(), Fail> {
    let mut decisions = Decisions::new(rt.alloc(), ORDERS, SLABS)?;
    let (pair, put) = (Ask::Pair(0, 2), Ask::Put(0, 0));
    assert!(rt; stand(&decisions, pair, None, Some(Ask::Pair(0, 1))));
    assert!(rt; decides(&mut decisions, Ask::Pair(0, 1), true, Ok(())));
    assert!(rt; decides(&mut decisions, Ask::Pair(1, 2), false, Ok(())));
    assert!(rt; decides(&mut decisions, pair, true, Err(Clash)));
    assert!(rt; stand(&decisions, pair, Some(false), Some(put)));
    assert!(rt; stand(&decisions, put, None, Some(put)));
    assert!(rt; decides(&mut decisions, Ask::Put(2, 0), true, Ok(())));
    assert!(rt; stand(&decisions, put, Some(false), None));
    assert!(rt; decides(&mut decisions, Ask::Put(1, 0), false, Ok(())));
    assert!(rt; allowed(&decisions) == (true, false, false, true));
    decisions.reset();
    assert!(rt; decisions.first_open() == Some(Ask::Pair(0, 1)));
    Ok(())
}
