ghost use Rattle.std.specs.Prelude.{List, ℕ, [], ◌∷◌, ◌++◌};
ghost use Rattle.mill_model.specs.LeastSizes.{IsAnswer};

// The lesser of the least size of some sizes and one more size, of those that are at least the load.
fn lesser(found: Option<u16>, size: u16, load: u32) -> Option<u16>
    ensures { (sizes : List ℕ) → IsAnswer sizes load found → IsAnswer (sizes ++ size ∷ []) load result }
{
    if u32::from(size) < load {
        return found;
    }
    match found {
        Some(least) if least <= size => found,
        _ => Some(size),
    }
}

// The least of the sizes that is at least the load, `None` where there is none.
pub(crate) fn least_size(sizes: &[u16], load: u32) -> Option<u16>
    ensures { IsAnswer sizes.now load result }
{
    let mut least = None;
    for &size in sizes {
        least = lesser(least, size, load);
    }
    least
}
