//! The text that `replay` writes: the logs of the forks of a world, after the events that were chosen.
#![tactic(auto)]

mod logs;
mod replay;

pub use logs::{edges_text, world_text};
pub use replay::replay_text;
