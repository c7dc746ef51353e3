//! The rules of Chandy and Misra's hygienic solution: the letters, the steps of a site, and the laws of all runs.
#![tactic(auto)]

mod breach;
mod clock;
mod events;
pub mod laws;
mod letters;
mod phase;
mod stamp;

pub use breach::Breach;
pub use clock::Clock;
pub use events::{Event, EventKind, Shape};
pub use letters::{Letter, LetterKind};
pub use phase::Phase;
pub use stamp::Stamp;
