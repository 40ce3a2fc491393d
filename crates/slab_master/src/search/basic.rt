// What is basic in a row, or enters. Of rows that are equal the least in this order leaves.
#[derive(Clone, Copy, PartialEq, Eq, PartialOrd, Ord, Debug)]
pub(crate) enum Basic {
    /// The artificial variable of the row. It never enters.
    Artificial,
    /// A given column.
    Column(usize),
    /// The slack of an AtMost row.
    Slack(u16),
}
