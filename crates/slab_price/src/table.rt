//! What the first groups of a queue gain at most beside a load, less the cost of a slab that holds them all.
ghost use Rattle.std.specs.Prelude.{◌≡◌, ◌+◌, ◌-◌, ◌*◌, ◌/◌, ◌^◌, ◌<◌, ◌≤◌, pos, ◌+ℤ◌, ◌≤ℤ◌, unsigned_abs, length, slice_index_or, vec_capacity};
ghost use Rattle.mill_model.specs.Mill.{most_orders, most_weight};
ghost use Rattle.pricing_laws.specs.Bounds.{AreSmall};
ghost use Rattle.slab_price.specs.Tables.{IsTableOf};

use crate::grid::Grid;

// The least step of the load for which a table of so many groups fits, and has no more entries than a walk has leaves.
pub(crate) fn step_for(groups: usize, room: usize, entries: usize) -> usize
    requires groups { groups ≤ most_orders }
    requires room { room ≤ most_weight }
    requires entries { groups + 1 ≤ entries }
    ensures some { 0 < result }
    ensures fits { (groups + 1) * (room / result + 1) ≤ entries }
{
    let leaves = if groups < 20 { 1 << groups } else { entries };
    let width = (entries.min(leaves) / (groups + 1)).max(1);
    room / width + 1
}

// An entry, from the row before: without a group more, or with it where a slab holds it.
fn entry(row: usize, table: &[i128], width: usize, column: usize, jump: usize, gain: i128) -> i128
    requires row { row + width ≤ length table.now }
    requires column { column < width }
    requires narrow { length table.now ≤ 2 ^ 24 }
    requires jump { jump < 2 ^ 32 }
    requires gain { unsigned_abs gain ≤ 2 ^ 84 }
    requires small { AreSmall table.now }
    ensures without { slice_index_or table.now (row + column) (pos 0) ≤ℤ result }
    ensures with { column + jump < width
        → (gain +ℤ slice_index_or table.now (row + (column + jump)) (pos 0)) ≤ℤ result }
    ensures small { unsigned_abs result ≤ 2 ^ 100 + (row + width) * 2 ^ 84 }
{
    let without = table[row + column];
    if column + jump >= width {
        return without;
    }
    without.max(gain + table[row + (column + jump)])
}

impl Grid<'_> {
    // Adds the row of no group: the ends.
    fn push_ends(&self, table: &mut Vec<i128>)
        requires none { length table.old.items ≡ 0 }
        requires room { self.now.width ≤ vec_capacity table.old }
        ensures size { length table.new.items ≡ self.now.width }
        ensures table { IsTableOf self.now table.new.items }
        ensures room { vec_capacity table.new ≡ vec_capacity table.old }
    {
        for column in 0..self.width {
            table.push_reserved(self.ends[column * self.step]);
        }
    }

    // Adds the row of one group more.
    fn push_row(&self, at: usize, table: &mut Vec<i128>)
        requires at { at < length self.now.heads.now }
        requires size { length table.old.items ≡ (at + 1) * self.now.width }
        requires room { (at + 2) * self.now.width ≤ vec_capacity table.old }
        requires table { IsTableOf self.now table.old.items }
        ensures size { length table.new.items ≡ (at + 2) * self.now.width }
        ensures table { IsTableOf self.now table.new.items }
        ensures room { vec_capacity table.new ≡ vec_capacity table.old }
    {
        let head = self.heads[at] as usize;
        let jump = self.groups.weight(head) as usize / self.step;
        let gain = self.groups.gain(head);
        let row = at * self.width;
        for column in 0..self.width {
            let next = entry(row, table, self.width, column, jump, gain);
            table.push_reserved(next);
        }
    }

    // Fills the table, row by row.
    pub(crate) fn tabulate(&self, table: &mut Vec<i128>)
        requires { (length self.now.heads.now + 1) * self.now.width ≤ vec_capacity table.old }
        ensures size { length table.new.items ≡ (length self.now.heads.now + 1) * self.now.width }
        ensures table { IsTableOf self.now table.new.items }
        ensures room { vec_capacity table.new ≡ vec_capacity table.old }
    {
        table.clear();
        self.push_ends(table);
        for at in 0..self.heads.len() {
            self.push_row(at, table);
        }
    }
}
