/// Why a line of a certificate is bad: the words of the table of rules, in the order in which a line is tested.
#[derive(Clone, Copy, Debug, PartialEq, Eq)]
pub enum Why {
    /// The text had ended, and a byte is left.
    Extra,
    /// The text hadn't ended, and no byte is left.
    End,
    /// The line has no line feed, is longer than 8,192 bytes with it, or has none of the forms.
    Spelling,
    /// A number is out of the range of its place.
    Range,
    /// A line of this form can't stand here.
    Expect,
    /// The losses of points don't rise, or their counts don't fall.
    Order,
    /// The size isn't listed.
    Size,
    /// The orders of a line aren't the mill's by rising number, or one was placed before, or the least that wasn't placed
    /// isn't the first.
    Place,
    /// The orders weigh more than the slab's size.
    Load,
    /// The orders have more different colours than one slab may have.
    Colours,
    /// The yard has no such surplus slab.
    Yard,
    /// The surplus slab was used before in this plan.
    Twice,
    /// An order is barred from the surplus slab.
    Barred,
    /// An order isn't placed where a plan ends.
    Unplaced,
    /// The plan has other sums than its point.
    Sums,
    /// The mill has no such question.
    Ask,
    /// The path answers the question already.
    Repeat,
    /// There aren't as many numbers as prices.
    Count,
    /// A price of loss or of a slab is negative.
    Sign,
    /// The price of a missing limit isn't 0.
    Missing,
    /// The orders aren't worth more than slabs within the limits cost.
    Sum,
    /// A legal column that agrees with the path is worth more than it costs.
    Column,
    /// The column of a share doesn't agree with the path.
    Agree,
    /// An order or a surplus slab is covered too often, or at the end an order too seldom.
    Cover,
    /// A spread loses more than its limit.
    Loss,
    /// A spread opens more new slabs than its limit.
    New,
}
