//! The numbers of the subject: the limits of a mill's numbers, of what its plans cost, and of files.

/// A mill has at most so many sizes.
pub const MOST_SIZES: u16 = 100;
/// An order weighs at most this much, and no slab is of a greater size.
pub const MOST_WEIGHT: u16 = 10000;
/// A mill has at most so many colours.
pub const MOST_COLOURS: u16 = 250;
/// The greatest colour limit.
pub const MOST_COLOUR_LIMIT: u16 = 3;
/// The colour limit of a mill that was told none.
pub const USUAL_COLOUR_LIMIT: u16 = 2;
/// A mill has at most so many orders.
pub const MOST_ORDERS: u16 = 250;
/// A yard has at most so many surplus slabs.
pub const MOST_SLABS: u16 = 40;
/// A yard has at most so many bars.
pub const MOST_BARS: u16 = 10000;
/// No legal plan loses more, and no mill's orders weigh more together.
pub const MOST_LOSS: u32 = 2_500_000;
/// No legal plan has more new slabs.
pub const MOST_COUNT: u16 = 250;
/// A Pareto front has at most so many points: one for each count.
pub const MOST_POINTS: usize = 251;
/// An order, yard or plan file has at most so many bytes.
pub const MOST_BYTES: usize = 1_048_576;
/// A certificate file that is read whole has at most so many bytes.
pub const MOST_CERTIFICATE_BYTES: usize = 268_435_456;
