ghost use Rattle.std.specs.Prelude.{◌≡◌, length, All};
ghost use Rattle.slab_master.specs.declared.problem.Aim.TheVariants.{Lessen};
ghost use Rattle.slab_master.specs.Given.{AreRows, IsColumn, IsSmall};

use crate::given::Sense;

// What a solve is after.
#[derive(Clone, Copy, PartialEq, Eq, Debug)]
pub(crate) enum Aim {
    /// Multipliers that meet every row: artificial variables whose sum is 0.
    Meet,
    /// Such multipliers of least cost.
    Lessen,
}

// What a solve reads.
#[derive(Clone, Copy)]
pub(crate) struct Problem<'a> {
    pub(crate) rows: &'a [(Sense, i64)],
    pub(crate) columns: &'a [Vec<(u16, i64)>],

    // What each column costs; nothing past the end.
    pub(crate) costs: &'a [i64],
    pub(crate) goal: Aim,

    // The columns that are likely basic.
    pub(crate) likely: &'a [usize],
    ghost small_rows: { AreRows rows.now },
    ghost within: { All (λ c. IsColumn (length rows.now) c.items) columns.now },
    ghost small_costs: { All IsSmall costs.now },
    ghost priced: { goal ≡ Lessen → length costs.now ≡ length columns.now },
}
