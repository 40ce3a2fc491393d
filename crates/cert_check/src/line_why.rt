//! Why a line is bad, with the column that one of the whys carries.
ghost use Rattle.std.specs.Prelude.{◌≡◌, ◌≢◌, Option};

use cert_rules::Why;
use mill_model::Kind;
use std::marker::Model;

/// The orders of a column, by rising number.
#[derive(Drop)]
pub struct OrderList {
    orders: Vec<u16>,
}

impl Model for OrderList {
    ghost use Rattle.std.specs.Prelude.{ℕ, List};

    ghost Value = { List ℕ };

    ghost view = { λ l. l.orders.items };
}

impl OrderList {
    /// These orders.
    pub fn new(orders: Vec<u16>) -> OrderList
        ensures { result ≡ orders.items }
    {
        OrderList { orders }
    }

    /// The orders.
    pub fn list(&self) -> &[u16]
        ensures { result.now ≡ self.now }
    {
        &self.orders
    }
}

/// Why a line of a certificate is bad: the words of the table of rules.
#[derive(Drop)]
pub enum LineWhy {
    /// The text had ended, and a byte is left.
    Extra,
    /// The text hadn't ended, and no byte is left.
    End,
    /// The line has no line feed, is longer than 8,192 bytes with it, or has none of the forms.
    Spelling,
    /// A number is out of the range of its place.
    Range,
    /// A line of this form can't stand here.
    Expect,
    /// The losses of points don't rise, or their counts don't fall.
    Order,
    /// The size isn't listed.
    Size,
    /// The orders of a line aren't the mill's by rising number, or one was placed before, or the least that wasn't placed
    /// isn't the first.
    Place,
    /// The orders weigh more than the slab's size.
    Load,
    /// The orders have more different colours than one slab may have.
    Colours,
    /// The yard has no such surplus slab.
    Yard,
    /// The surplus slab was used before in this plan.
    Twice,
    /// An order is barred from the surplus slab.
    Barred,
    /// An order isn't placed where a plan ends.
    Unplaced,
    /// The plan has other sums than its point.
    Sums,
    /// The mill has no such question.
    Ask,
    /// The path answers the question already.
    Repeat,
    /// There aren't as many numbers as prices.
    Count,
    /// A price of loss or of a slab is negative.
    Sign,
    /// The price of a missing limit isn't 0.
    Missing,
    /// The orders aren't worth more than slabs within the limits cost.
    Sum,
    /// This legal column agrees with the path and is worth more than it costs; on a new slab it is one of the least size
    /// that holds it.
    Column {
        /// Its slab.
        kind: Kind,
        /// Its orders.
        orders: OrderList,
    },
    /// The column of a share doesn't agree with the path.
    Agree,
    /// An order or a surplus slab is covered too often, or at the end an order too seldom.
    Cover,
    /// A spread loses more than its limit.
    Loss,
    /// A spread opens more new slabs than its limit.
    New,
}

impl LineWhy {
    ghost use Rattle.mill_model.specs.Columns.{Column};
    ghost use Rattle.cert_check.specs.Held.{CarriesColumn};
    ghost use Rattle.cert_check.specs.Whys.{why_of};

    // A why without a column.
    pub(crate) fn plain(why: Why) -> LineWhy
        requires { why ≢ Why.Column }
        ensures why { why_of result ≡ why }
        ensures no_column { (bad : Option Column) → CarriesColumn bad result }
    {
        match why {
            Why::Extra => LineWhy::Extra,
            Why::End => LineWhy::End,
            Why::Spelling => LineWhy::Spelling,
            Why::Range => LineWhy::Range,
            Why::Expect => LineWhy::Expect,
            Why::Order => LineWhy::Order,
            Why::Size => LineWhy::Size,
            Why::Place => LineWhy::Place,
            Why::Load => LineWhy::Load,
            Why::Colours => LineWhy::Colours,
            Why::Yard => LineWhy::Yard,
            Why::Twice => LineWhy::Twice,
            Why::Barred => LineWhy::Barred,
            Why::Unplaced => LineWhy::Unplaced,
            Why::Sums => LineWhy::Sums,
            Why::Ask => LineWhy::Ask,
            Why::Repeat => LineWhy::Repeat,
            Why::Count => LineWhy::Count,
            Why::Sign => LineWhy::Sign,
            Why::Missing => LineWhy::Missing,
            Why::Sum => LineWhy::Sum,
            Why::Agree => LineWhy::Agree,
            Why::Cover => LineWhy::Cover,
            Why::Loss => LineWhy::Loss,
            Why::New => LineWhy::New,
            Why::Column => unreachable!(),
        }
    }
}
