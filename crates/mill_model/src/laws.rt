//! The laws that join the definitions. Each is the contract of a function that does nothing.

ghost use Rattle.mill_model.specs.Laws.{PricesExcludePlans, PlansAnswerOnce, PlansAgreeBySlabs, TreesExcludePlans, TreesServeSmallerLimits, FrontsCoverAttainedPairs, WholeCertificatesGiveTheFront, NoPointMeansNoPlan, GoodHeadsBeginTheFront, NoCoverWhereRefuted, OneFront, TreesHaveFewNodes, StepsBeginOneTree, MarkedStepsBeginOneTree, CoversServeGreaterLimits, ShownCoversExcludePrices, PlainMarksClaimNothing, PlansAgreeWithWhatFollows, ColumnsAgreeWithWhatFollows, SizesAreLossAndWeights, LegalPlansBreakNoRule, PlainlyRefutedLimitsAreRefuted};

/// The sizes of a legal plan's slabs sum to its loss and the weights of all orders: the loss isn't cut off at 0.
pub fn sizes_are_loss_and_weights()
    ensures { SizesAreLossAndWeights }
{}

/// No rule is broken exactly where a plan is legal.
pub fn legal_plans_break_no_rule()
    ensures { LegalPlansBreakNoRule }
{}

/// A mill has at most one Pareto front.
pub fn a_mill_has_one_front()
    ensures { OneFront }
{}

/// A front covers every attained pair: some point of it is at most the pair in loss and in count.
pub fn fronts_cover_attained_pairs()
    ensures { FrontsCoverAttainedPairs }
{}

/// Refuting prices exclude plans (Farkas' lemma, the sound half).
pub fn prices_exclude_plans()
    ensures { PricesExcludePlans }
{}

/// A plan agrees with exactly one answer of each question.
pub fn plans_answer_once()
    ensures { PlansAnswerOnce }
{}

/// A legal plan and its columns agree alike.
pub fn plans_agree_by_slabs()
    ensures { PlansAgreeBySlabs }
{}

/// A legal plan agrees with what follows from its decisions.
pub fn plans_agree_with_what_follows()
    ensures { PlansAgreeWithWhatFollows }
{}

/// A column agrees with what follows from its decisions.
pub fn columns_agree_with_what_follows()
    ensures { ColumnsAgreeWithWhatFollows }
{}

/// A tree excludes plans.
pub fn trees_exclude_plans()
    ensures { TreesExcludePlans }
{}

/// A tree serves smaller limits.
pub fn trees_serve_smaller_limits()
    ensures { TreesServeSmallerLimits }
{}

/// A finished or unfinished tree has at most one node less than twice 2 to the number of questions.
pub fn trees_have_few_nodes()
    ensures { TreesHaveFewNodes }
{}

/// A list of steps begins with at most one tree.
pub fn steps_begin_one_tree()
    ensures { StepsBeginOneTree }
{}

/// Steps and marks begin with at most one marked tree.
pub fn marked_steps_begin_one_tree()
    ensures { MarkedStepsBeginOneTree }
{}

/// Where a question shows a cover, no prices refute.
pub fn shown_covers_exclude_prices()
    ensures { ShownCoversExcludePrices }
{}

/// Plain marks claim nothing, so a certificate of version 1 is one whose marks are all plain.
pub fn plain_marks_claim_nothing()
    ensures { PlainMarksClaimNothing }
{}

/// The gap law: the points of a good whole certificate are the Pareto front.
pub fn whole_certificates_give_the_front()
    ensures { WholeCertificatesGiveTheFront }
{}

/// Where a good whole certificate has no point, no plan is legal.
pub fn no_point_means_no_plan()
    ensures { NoPointMeansNoPlan }
{}

/// The points of a good head but the last are undominated, and the last has the least loss of those that fall below the point before it.
pub fn good_heads_begin_the_front()
    ensures { GoodHeadsBeginTheFront }
{}

/// Limits below 0, and so few new slabs that these and the yard don't hold the orders, are refuted by prices.
pub fn plainly_refuted_limits_are_refuted()
    ensures { PlainlyRefutedLimitsAreRefuted }
{}

/// A fractional cover and refuting prices exclude each other (weak duality).
pub fn no_cover_where_refuted()
    ensures { NoCoverWhereRefuted }
{}

/// A fractional cover serves greater limits.
pub fn covers_serve_greater_limits()
    ensures { CoversServeGreaterLimits }
{}
