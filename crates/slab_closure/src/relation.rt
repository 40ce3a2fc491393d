ghost use Rattle.std.specs.Prelude.{◌≡◌};
ghost use Rattle.slab_closure.specs.Cells.{joined_of};

/// Whether two nodes lie in one group, in two groups, or either may be.
#[derive(Clone, Copy, PartialEq, Eq, Debug)]
pub enum Relation {
    /// Either may be.
    Open,
    /// They lie in one group.
    Same,
    /// They lie in two groups.
    Apart,
}

// The relation of a node to the group that two groups make, from how it stands to each of the two.
pub(crate) fn joined(first: Relation, second: Relation) -> Relation
    ensures { result ≡ joined_of first second }
{
    match (first, second) {
        (Relation::Same, _) | (_, Relation::Same) => Relation::Same,
        (Relation::Apart, _) | (_, Relation::Apart) => Relation::Apart,
        (Relation::Open, Relation::Open) => Relation::Open,
    }
}
