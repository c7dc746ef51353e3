//! The phase of a site.
/// What a site is doing.
#[derive(Clone, Copy, Debug, PartialEq, Eq)]
pub enum Phase {
    Thinking,
    Hungry,
    Eating,
}
