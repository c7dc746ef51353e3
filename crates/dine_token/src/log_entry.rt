//! What a fork's log is made of.

/// An entry of a fork's log.
#[derive(Clone, Copy, Debug, PartialEq, Eq)]
pub enum Entry {
    /// Meal `k` of the site `site`, from 1, was eaten with the fork.
    Meal { site: u32, k: u32 },
    /// The fork was sent to the end `to`.
    Move { to: u32 },
}
