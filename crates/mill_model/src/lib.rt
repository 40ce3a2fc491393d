//! The steel mill slab design problem (CSPLib problem 038) with a yard of surplus slabs: mills, plans, their Pareto front,
//! and the certificates that prove one, with the laws that join these definitions.
//!
//! Read `numbers`, `order`, `yard` and `mill` first (what is given), then `kind`, `kinds`, `column`, `colour_set`, `loads` and `fitting`
//! (slabs and the orders on them), `plan`, `sums`, `illegal` and `judge` (plans and their rules), `limits`, `ask`, `prices`, `lent_prices`, `share`, `shown`, `mark` and `steps` (what proves that no plan is better),
//! `head`, `front`, `open_tree`, `proved` and `version` (certificates), and last `laws`. Of the definitions, read `Mill`,
//! `Columns`, `Plans`, `Judging`, `Limits`, `Decisions`, `Prices`, `Covers`, `Trees`, `Marks` and `Fronts`, in this order.
#![tactic(auto)]

mod ask;
mod bar_table;
mod colour_set;
mod column;
mod fitting;
mod front;
mod head;
mod illegal;
mod judge;
mod kind;
mod kinds;
mod laws;
mod lent_prices;
mod limits;
mod loads;
mod mark;
mod mill;
mod numbers;
mod open_tree;
mod order;
mod plan;
mod prices;
mod proved;
mod share;
mod shown;
mod starter;
mod steps;
mod sums;
mod version;
mod yard;

pub use ask::Ask;
pub use colour_set::ColourSet;
pub use column::Column;
pub use front::Front;
pub use head::Head;
pub use illegal::Illegal;
pub use kind::Kind;
pub use laws::{
    a_mill_has_one_front, columns_agree_with_what_follows, covers_serve_greater_limits,
    fronts_cover_attained_pairs, good_heads_begin_the_front, legal_plans_break_no_rule,
    marked_steps_begin_one_tree, no_cover_where_refuted, no_point_means_no_plan,
    plain_marks_claim_nothing, plainly_refuted_limits_are_refuted, plans_agree_by_slabs,
    plans_agree_with_what_follows, plans_answer_once, prices_exclude_plans,
    shown_covers_exclude_prices, sizes_are_loss_and_weights, steps_begin_one_tree,
    trees_exclude_plans, trees_have_few_nodes, trees_serve_smaller_limits,
    whole_certificates_give_the_front,
};
pub use lent_prices::LentPrices;
pub use limits::Limits;
pub use mark::Mark;
pub use mill::Mill;
pub use numbers::{
    MOST_BARS, MOST_BYTES, MOST_CERTIFICATE_BYTES, MOST_COLOUR_LIMIT, MOST_COLOURS, MOST_COUNT,
    MOST_LOSS, MOST_ORDERS, MOST_POINTS, MOST_SIZES, MOST_SLABS, MOST_WEIGHT, USUAL_COLOUR_LIMIT,
};
pub use open_tree::OpenTree;
pub use order::Order;
pub use plan::Plan;
pub use prices::Prices;
pub use proved::Proved;
pub use share::Share;
pub use shown::Shown;
pub use starter::Starter;
pub use steps::{Step, Steps};
pub use sums::Sums;
pub use version::Version;
pub use yard::Yard;
