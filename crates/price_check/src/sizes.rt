//! The least size that holds a load.
ghost use Rattle.std.specs.Prelude.{List, ℕ, [], ◌∷◌, ◌++◌};
ghost use Rattle.mill_model.specs.LeastSizes.{IsAnswer};

// The lesser of the least size so far and one more size, of those that hold the weight.
fn lesser(found: Option<u16>, size: u16, weight: u32) -> Option<u16>
    ensures { (sizes : List ℕ) → IsAnswer sizes weight found
        → IsAnswer (sizes ++ size ∷ []) weight result }
{
    if u32::from(size) < weight {
        return found;
    }
    match found {
        Some(least) if least <= size => found,
        _ => Some(size),
    }
}

// The least of the sizes that hold the weight, if one does.
pub(crate) fn least_size(sizes: &[u16], weight: u32) -> Option<u16>
    ensures { IsAnswer sizes.now weight result }
{
    let mut least = None;
    for &size in sizes {
        least = lesser(least, size, weight);
    }
    least
}
