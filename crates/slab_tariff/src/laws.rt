//! What a tariff says of all plans. Each law is the contract of a function that does nothing.
ghost use Rattle.slab_tariff.specs.Laws.{CheapestPointsAreCheapestPlans, EachRatioHasASpan, FrontsAreStaircases, PointsOfSpansAreCheapestPlans, SpansTouch};

/// The cheapest point of a front costs at most what any legal plan costs.
pub fn cheapest_points_are_cheapest_plans()
    ensures { CheapestPointsAreCheapestPlans }
{}

/// A point of a span costs at most what any legal plan costs, at all prices whose ratio lies in the span.
pub fn points_of_spans_are_cheapest_plans()
    ensures { PointsOfSpansAreCheapestPlans }
{}

/// The losses of a front's points rise, and their counts fall, as `intervals` and `cheapest` ask.
pub fn fronts_are_staircases()
    ensures { FrontsAreStaircases }
{}

/// Each span begins where the one before it ends, the first at 0, and the last has no upper end.
pub fn spans_touch()
    ensures { SpansTouch }
{}

/// Each ratio of prices lies in the span of some point.
pub fn each_ratio_has_a_span()
    ensures { EachRatioHasASpan }
{}
