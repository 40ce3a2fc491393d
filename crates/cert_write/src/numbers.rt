// Lists of numbers, each after a space.
ghost use Rattle.std.specs.Prelude.{map, ◌∷◌, []};
ghost use Rattle.cert_view.specs.Text.{numbers_text};
ghost use Rattle.cert_text.specs.Lines.{number};
ghost use Rattle.mill_model.specs.Plans.{places_of};
ghost use Rattle.line_out.specs.Puts.{Puts};

use line_out::{End, LineOut};

// These numbers.
pub fn put_numbers<D, E: End<D>>(out: &mut LineOut<E>, desk: &mut D, numbers: &[i64])
    ensures { Puts E.sends (numbers_text numbers.now) (out.old, E.seen desk.old) (out.new, E.seen desk.new) }
{
    for number in numbers {
        out.signed_number(desk, *number);
    }
}

// An order, or a surplus slab, by its number from 1.
pub fn put_index<D, E: End<D>>(out: &mut LineOut<E>, desk: &mut D, index: u16)
    ensures { Puts E.sends (numbers_text (number index ∷ [])) (out.old, E.seen desk.old) (out.new, E.seen desk.new) }
{
    out.number(desk, u64::from(index) + 1);
}

// These orders.
pub fn put_orders<D, E: End<D>>(out: &mut LineOut<E>, desk: &mut D, orders: &[u16])
    ensures { Puts E.sends (numbers_text (map number orders.now)) (out.old, E.seen desk.old) (out.new, E.seen desk.new) }
{
    for order in orders {
        put_index(out, desk, *order);
    }
}

// The orders whose place is slab k.
pub fn put_placed<D, E: End<D>>(out: &mut LineOut<E>, desk: &mut D, place: &[u16], k: usize)
    ensures { Puts E.sends (numbers_text (map number (places_of k 0 place.now))) (out.old, E.seen desk.old) (out.new, E.seen desk.new) }
{
    for (order, slab) in place.iter().enumerate() {
        if usize::from(*slab) == k {
            out.number(desk, order as u64 + 1);
        }
    }
}
