/// The last word of what is said: how the search ended.
#[derive(Clone, Copy, Debug, PartialEq, Eq)]
pub enum Word {
    /// The points are the whole front.
    Complete,
    /// The nodes were used up before the front was whole.
    Budget,
    /// No plan is legal.
    NoPlan,
}
