use crate::frac_list::FracList;

/// What a solve found.
#[derive(Drop)]
pub enum Outcome {
    /// A multiplier for each column, none negative, that meet every row.
    Spread(FracList),

    /// A price for each row that shows that no multipliers meet every row.
    Prices(FracList),

    /// A fraction left its range, and was counted.
    Wide,

    /// 20,000 pivots brought no answer.
    Stalled,
}

/// What a solve for least cost found.
#[derive(Drop)]
pub enum Least {
    /// A multiplier for each column, none negative, that meet every row, and a price for each row that shows that none cost
    /// less.
    Best { x: FracList, y: FracList },

    /// A price for each row that shows that no multipliers meet every row.
    Prices(FracList),

    /// A fraction left its range, and was counted.
    Wide,

    /// 20,000 pivots brought no answer.
    Stalled,
}

// An answer whose test holds.
#[derive(Drop)]
pub(crate) enum Answer {
    Meets(FracList),
    Best { x: FracList, y: FracList },
    Refutes(FracList),
}

// What one turn of a solve found.
#[derive(Drop)]
pub(crate) enum Turn {
    Answers(Answer),
    TooWide,
    Again,
}

// How a solve ended.
#[derive(Drop)]
pub(crate) enum Ended {
    Answered(Answer),
    LeftRange,
    GaveUp,
}
