ghost use Rattle.std.specs.Prelude.{ℕ, ◌<◌, All};

// Adds a column to the list of those that are likely basic, if it is below `count` and there is room.
pub(crate) fn add_likely(list: &mut Vec<usize>, column: usize, count: usize)
    requires { All (λ j. j < count) list.old.items }
    ensures { All (λ j. j < count) list.new.items }
{
    if column < count && list.len() < list.capacity() {
        let _ = list.push(column);
    }
}

// Writes these columns into the list, as far as they are below `count` and there is room.
pub(crate) fn write_likely(list: &mut Vec<usize>, columns: &[usize], count: usize)
    ensures { All (λ j. j < count) list.new.items }
{
    list.clear();
    for column in columns {
        add_likely(list, *column, count);
    }
}
