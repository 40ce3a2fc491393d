ghost use Rattle.std.specs.Prelude.{ℕ, ◌≡◌, ◌<◌, ◌≤◌, length, if◌then◌else◌, slice_index};
ghost use Rattle.slab_closure.specs.Cells.{is_same};
ghost use Rattle.slab_closure.specs.Relations.{relation_at};

use crate::square::Square;

// Writes the size of a group for each of its nodes, of which node a is one.
pub(crate) fn write_size(sizes: &mut [u16], square: &Square, a: usize, size: u16)
    requires a { a < square.now.count }
    requires each { length sizes.old ≡ square.now.count }
    ensures { (x : ℕ) → x < square.now.count →
        slice_index sizes.new x ≡ (if is_same (relation_at square.now a x) then size else slice_index sizes.old x) }
{
    for (x, place) in sizes.iter_mut().enumerate() {
        if square.in_one_group(a, x) {
            *place = size;
        }
    }
}
