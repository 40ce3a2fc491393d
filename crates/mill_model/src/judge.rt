//! The rules of a plan, tested in their order.

ghost use Rattle.std.specs.Prelude.{◌≡◌, ◌<◌, ◌^◌, ◌∷◌, nat_eq, nat_lt, length, map, flat_map, OnOk};
ghost use Rattle.std.specs.List.{range_with_len, list_any};
ghost use Rattle.mill_model.specs.Columns.{load, colours_of, is_barred, has_barred};
ghost use Rattle.mill_model.specs.Plans.{places_of, IsLegal, sums_of};
ghost use Rattle.mill_model.specs.Judging.{rules_of, slab_rules, AnswersFirst, is_unlisted, is_missing};

use crate::colour_set::ColourSet;
use crate::numbers::MOST_ORDERS;
use crate::{Illegal, Kind, Mill, Plan, Sums};

/// Tests all rules in their order.
pub fn judge_rules(mill: &Mill, plan: &Plan) -> Result<(), Illegal>
    ensures { AnswersFirst mill.now plan.now (rules_of plan.now) result }
{
    judge_places(mill, plan)?;
    judge_slabs(mill, plan)
}

// Tests that there is one place for each order, and that each is a slab.
fn judge_places(mill: &Mill, plan: &Plan) -> Result<(), Illegal>
    ensures first { AnswersFirst mill.now plan.now
        (Illegal.Places ∷ map Illegal.Place (range_with_len 0 (length plan.now.place))) result }
    ensures counted { OnOk result (length plan.now.place ≡ length mill.now.orders) }
{
    if plan.place().len() != mill.orders().len() {
        return Err(Illegal::Places);
    }
    let slabs = plan.kinds().len();
    for (order, place) in plan.place().iter().enumerate() {
        if *place as usize >= slabs {
            return Err(Illegal::Place(order as u16));
        }
    }
    Ok(())
}

// Tests each slab in turn.
fn judge_slabs(mill: &Mill, plan: &Plan) -> Result<(), Illegal>
    requires { length plan.now.place ≡ length mill.now.orders }
    ensures { AnswersFirst mill.now plan.now
        (flat_map slab_rules (range_with_len 0 (length plan.now.kinds))) result }
{
    let orders = mill.orders().len();
    prove!(orders <= MOST_ORDERS as usize);
    for k in 0..plan.kinds().len() {
        judge_slab(mill, plan, k as u16)?;
    }
    Ok(())
}

// Tests the rules of slab k.
fn judge_slab(mill: &Mill, plan: &Plan, k: u16) -> Result<(), Illegal>
    requires slab { k < length plan.now.kinds }
    requires places { length plan.now.place ≡ length mill.now.orders }
    ensures { AnswersFirst mill.now plan.now (slab_rules k) result }
{
    let kind = plan.kinds()[k as usize];
    if is_empty(plan.place(), k) {
        return Err(Illegal::Empty(k));
    }
    if has_unlisted_size(mill, kind) {
        return Err(Illegal::Size(k));
    }
    if is_not_in_yard(mill, kind) {
        return Err(Illegal::Yard(k));
    }
    if kind.is_among(&plan.kinds()[..k as usize]) {
        return Err(Illegal::Twice(k));
    }
    if load_on(mill, plan.place(), k) > u32::from(mill.size_of(kind)) {
        return Err(Illegal::Load(k));
    }
    if has_many_colours(mill, plan.place(), k) {
        return Err(Illegal::Colours(k));
    }
    if has_barred_order(mill, plan.place(), k, kind) {
        return Err(Illegal::Barred(k));
    }
    Ok(())
}

// Whether slab k has no order.
fn is_empty(place: &[u16], k: u16) -> bool
    ensures { result ≡ nat_eq (length (places_of k 0 place.now)) 0 }
{
    !place.contains(&k)
}

// Whether this is a new slab of a size that isn't listed.
fn has_unlisted_size(mill: &Mill, kind: Kind) -> bool
    ensures { result ≡ is_unlisted mill.now kind }
{
    match kind {
        Kind::New(size) => !mill.sizes().contains(&size),
        Kind::Old(_) => false,
    }
}

// Whether this is a surplus slab that isn't in the yard.
fn is_not_in_yard(mill: &Mill, kind: Kind) -> bool
    ensures { result ≡ is_missing mill.now kind }
{
    match kind {
        Kind::New(_) => false,
        Kind::Old(slab) => slab as usize >= mill.yard().len(),
    }
}

// What the orders on slab k weigh together.
fn load_on(mill: &Mill, place: &[u16], k: u16) -> u32
    requires { length place.now ≡ length mill.now.orders }
    ensures { result ≡ load mill.now (places_of k 0 place.now) }
{
    let orders = mill.orders();
    let mut sum: u32 = 0;
    for o in 0..place.len() {
        if place[o] == k {
            sum += orders[o].weight as u32;
        }
    }
    sum
}

// Whether the orders on slab k have more different colours than the mill allows.
fn has_many_colours(mill: &Mill, place: &[u16], k: u16) -> bool
    requires { length place.now ≡ length mill.now.orders }
    ensures { result
        ≡ nat_lt mill.now.colour_limit (colours_of mill.now (places_of k 0 place.now)) }
{
    let orders = mill.orders();
    let limit = mill.colour_limit();
    let mut colours = ColourSet::new();
    for o in 0..place.len() {
        if place[o] == k && !colours.add(orders[o].colour, limit) {
            return true;
        }
    }
    false
}

// Whether an order on slab k, which is of this kind, is barred from it.
fn has_barred_order(mill: &Mill, place: &[u16], k: u16, kind: Kind) -> bool
    requires { length place.now ≡ length mill.now.orders }
    ensures { result
        ≡ has_barred mill.now (record { kind = kind; orders = places_of k 0 place.now }) }
{
    match kind {
        Kind::New(_) => false,
        Kind::Old(slab) => bars_an_order(mill, place, k, slab),
    }
}

// Whether an order on slab k is barred from this surplus slab.
fn bars_an_order(mill: &Mill, place: &[u16], k: u16, slab: u16) -> bool
    requires { length place.now ≡ length mill.now.orders }
    ensures { result
        ≡ list_any (λ o. is_barred mill.now o (Kind.Old slab)) (places_of k 0 place.now) }
{
    let orders = mill.orders().len();
    prove!(orders <= MOST_ORDERS as usize);
    for o in 0..place.len() {
        if place[o] == k && mill.is_barred(o as u16, slab) {
            return true;
        }
    }
    false
}

/// The loss of a legal plan, and the number of its new slabs.
pub fn sums(mill: &Mill, plan: &Plan) -> Sums
    requires { IsLegal mill.now plan.now }
    ensures { result ≡ sums_of mill.now plan.now }
{
    let orders = mill.orders().len();
    prove!(orders <= MOST_ORDERS as usize);
    Sums {
        loss: mill.total_size(plan.kinds()) - mill.total_weight(),
        count: Kind::count_new(plan.kinds()),
    }
}
