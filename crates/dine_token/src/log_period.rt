//! The periods of a fork's log.

/// A stay of a fork at one of its ends, with the meals that were eaten during it.
///
/// The periods of a log give the whole log: the first is from the start, at the lower end, and each Move begins
/// another.
#[derive(Clone, Copy, Debug, PartialEq, Eq)]
pub struct Period {
    /// The end where the fork is.
    pub site: u32,
    /// The number of the end's first meal in this period, from 1. If there is none, one more than its meals before.
    pub first: u32,
    /// The number of meals of the end in this period. It may be 0 only in the first and the last period.
    pub count: u32,
}
