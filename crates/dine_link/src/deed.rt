//! What the thread of a site does: events, rings, wakes, and what it does at its bell.
use crate::wants::Wants;
use dine_rules::{EventKind, LetterKind};

/// One thing that the thread of a site did.
#[derive(Clone, Copy)]
pub enum Deed {
    /// It did this event.
    Did(EventKind),
    /// It rang the bell of its neighbour at this place, for a letter of this kind. If true, the ring found the bell
    /// asleep, and has to wake it.
    Rang(u32, LetterKind, bool),
    /// It woke the thread of its neighbour at this place, whose bell slept.
    Woke(u32),
    /// Its bell reported a ring by the ringer of this number.
    Heard(u32),
    /// It checked its bell, and no ring was left.
    FoundNone,
    /// It fell asleep at its bell, at which no ring was left, with these wants.
    Slept(Wants),
}
