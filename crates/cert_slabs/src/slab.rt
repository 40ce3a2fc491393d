//! One slab: what a line's numbers name, and what the mill allows on it.
ghost use Rattle.std.specs.Prelude.{◌≡◌, ◌≢◌, Err, ◌≤◌, ◌<◌, ◌^◌, ◌↔◌, true, IfSome, IfNone, IsTrue, length};
ghost use Rattle.mill_model.specs.Columns.{Rises, load, colours_of, has_barred};
ghost use Rattle.cert_rules.specs.Numbers.{Names, index, natural};
ghost use Rattle.cert_rules.specs.Slabs.{IsListed, HasFewColours};
ghost use Rattle.cert_slabs.specs.Answers.{Answers, bar_rules, slab_rules};

use crate::colours::Colours;
use cert_rules::Why;
use mill_model::{Kind, MOST_WEIGHT, Mill};

/// The listed size that a number is, if it is one.
pub fn listed_size(mill: &Mill, number: i64) -> Option<u16>
    ensures listed { IfSome result (λ size. IsListed mill.now number × (natural number ≡ size)) }
    ensures unlisted { IfNone result (¬ IsListed mill.now number) }
{
    let sizes = mill.sizes();
    if number < 0 || number > i64::from(MOST_WEIGHT) {
        return None;
    }
    let size = number as u16;
    if !sizes.contains(&size) {
        return None;
    }
    Some(size)
}

/// The surplus slab that a number names, if it names one.
pub fn named_slab(mill: &Mill, number: i64) -> Option<u16>
    ensures named { IfSome result (λ s. Names (length mill.now.yard) number × (index number ≡ s)) }
    ensures unnamed { IfNone result (¬ Names (length mill.now.yard) number) }
{
    if 1 <= number && number <= mill.yard().len() as i64 {
        Some((number - 1) as u16)
    } else {
        None
    }
}

/// Tests what orders weigh together on a slab, how many colours they have, and on a surplus slab whether one is barred.
pub fn test_slab(mill: &Mill, kind: Kind, orders: &[u16]) -> Result<(), Why>
    requires { Rises 0 (length mill.now.orders) orders.now }
    ensures rules { Answers
        (slab_rules mill.now (record { kind = kind; orders = orders.now })) result }
    ensures other { result ≢ Err Why.Column }
{
    if load_of(mill, orders) > u32::from(mill.size_of(kind)) {
        return Err(Why::Load);
    }
    if !has_few_colours(mill, orders) {
        return Err(Why::Colours);
    }
    match kind {
        Kind::New(_) => Ok(()),
        Kind::Old(slab) => test_bars(mill, slab, orders),
    }
}

// What orders weigh together.
pub(crate) fn load_of(mill: &Mill, orders: &[u16]) -> u32
    requires { Rises 0 (length mill.now.orders) orders.now }
    ensures { result ≡ load mill.now orders.now }
{
    let all = mill.orders();
    let mut sum: u32 = 0;
    for order in orders {
        sum += u32::from(all[usize::from(*order)].weight);
    }
    sum
}

// Whether the orders have no more different colours than one slab may have.
fn has_few_colours(mill: &Mill, orders: &[u16]) -> bool
    requires { Rises 0 (length mill.now.orders) orders.now }
    ensures { IsTrue result ↔ (colours_of mill.now orders.now ≤ mill.now.colour_limit) }
{
    let all = mill.orders();
    let limit = mill.colour_limit();
    let mut colours = Colours::new();
    for order in orders {
        if !colours.add(all[usize::from(*order)].colour, limit) {
            return false;
        }
    }
    true
}

// Tests that no order is barred from a surplus slab.
fn test_bars(mill: &Mill, slab: u16, orders: &[u16]) -> Result<(), Why>
    ensures rules { Answers (bar_rules mill.now
        (record { kind = Kind.Old slab; orders = orders.now }) (Kind.Old slab)) result }
    ensures other { result ≢ Err Why.Column }
{
    for order in orders {
        if mill.is_barred(*order, slab) {
            return Err(Why::Barred);
        }
    }
    Ok(())
}
