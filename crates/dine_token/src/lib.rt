//! The tokens of the dining philosophers: forks that carry the log of their meals and moves, request tokens, and the
//! hands and meals that hold forks. A fork or a token is moved from one owner to the next, and cannot be copied.
#![tactic(auto)]

mod act;
mod fork;
mod held;
pub mod laws;
mod limits;
mod log_entry;
mod log_period;
mod meal;
mod token;

pub use act::Act;
pub use fork::Fork;
pub use held::Held;
pub use limits::{MAX_JOBS, MAX_NUMBER};
pub use log_entry::Entry;
pub use log_period::Period;
pub use meal::Meal;
pub use token::Token;
