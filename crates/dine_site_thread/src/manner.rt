//! The manners in which a site does its events: when it reads its letters, and which it leaves in their links.

/// The number of meals that a greedy site begins before it first checks its bell.
pub const FIRST_CHECK: u32 = 128;

/// When a site reads its letters. In each manner it does so when it can do nothing else.
///
/// Which manner a site has changes nothing about who may eat. It changes how often forks move, and how long a neighbour
/// that has asked waits.
#[derive(Clone, Copy, Debug, PartialEq, Eq)]
pub enum Manner {
    /// Reads its letters only when it can do nothing else, and then takes each that has arrived. A neighbour that asked
    /// may wait for all meals of the site.
    Eager,
    /// Reads its letters also after 128 meals, 256, 512 and so on, each time until a check of its bell reports no ring.
    /// A letter stays in its link until it matters: a Request for a fork that is clean in the hand of the site lets the
    /// site do nothing before its next meal, and once it is taken the fork has to go away after this meal. So few
    /// letters are sent. A neighbour that asked may wait for as many meals as the site has begun, or 128.
    Greedy,
    /// Reads its letters also before its first meal, and then before one meal in this number, until a check of its bell
    /// reports no ring. Letters stay in their links as with [`Manner::Greedy`]. So a neighbour that has rung for its
    /// request waits for at most this number of meals of the site; 0 counts as 1. A site of patience 1 is called
    /// polite. The bound is proved of the protocol in `dine_waking`.
    Patient(u32),
    /// As a site of this patience, and it also thinks on although it has jobs left, as long as its diner is not called
    /// to the next one ([`crate::Diner::is_called`]). So its jobs may arrive at any time. Meanwhile it answers its
    /// neighbours, and sleeps at its bell until one of them rings, or whoever has one more ringer of this bell.
    OnCall(u32),
}
